//! Laws of the objects that replies are.
ghost use Rattle.std.specs.Prelude.{◌≡◌, []};
ghost use Rattle.sm_model.specs.declared.reply.BatchError.{BatchError};
ghost use Rattle.sm_model.specs.declared.reply.Described.{Described};
ghost use Rattle.sm_model.specs.declared.reply.GotSecret.{GotSecret};
ghost use Rattle.sm_model.specs.declared.reply.Reply.TheVariants as replies;
ghost use Rattle.sm_model.specs.declared.reply.ReplicationStatus.{ReplicationStatus};
ghost use Rattle.sm_model.specs.declared.reply.RulesShown.{RulesShown};
ghost use Rattle.sm_model.specs.declared.reply.ValidationError.{ValidationError};
ghost use Rattle.sm_model.specs.declared.reply.VersionItem.{VersionItem};
ghost use Rattle.sm_model.specs.declared.value.Tag.{Tag};
ghost use Rattle.sm_reply.specs.Laws.{RepliesAscend, RefusalsAscend, ShowsExactly, RepliesShowExactly, RefusalsShowExactly};
ghost use Rattle.sm_reply.specs.Shown.{body_of, got_members, batch_error_members, listed_members, replication_members, rules_members, tag_members, version_members, fault_members};

/// Each object of a reply or a refusal, at every depth, has its members in ascending byte order.
pub fn members_ascend()
    ensures replies { RepliesAscend }
    ensures refusals { RefusalsAscend }
{}

/// A member of an object stands there exactly where its value is there, and nothing else does: in replies, in refusals,
/// and in the objects that stand in replies.
pub fn members_stand_where_their_values_are()
    ensures replies { RepliesShowExactly }
    ensures refusals { RefusalsShowExactly }
    ensures got { (got : GotSecret) → ShowsExactly (got_members got) }
    ensures errors { (error : BatchError) → ShowsExactly (batch_error_members error) }
    ensures listed { (secret : Described) → ShowsExactly (listed_members secret) }
    ensures replicas { (status : ReplicationStatus) → ShowsExactly (replication_members status) }
    ensures rules { (rules : RulesShown) → ShowsExactly (rules_members rules) }
    ensures tags { (tag : Tag) → ShowsExactly (tag_members tag) }
    ensures versions { (version : VersionItem) → ShowsExactly (version_members version) }
    ensures faults { (fault : ValidationError) → ShowsExactly (fault_members fault) }
{}

/// TagResource and UntagResource are answered with an empty body.
pub fn tagging_is_answered_with_nothing()
    ensures tagged { body_of replies.TagResource ≡ [] }
    ensures untagged { body_of replies.UntagResource ≡ [] }
{}
