//! A law of the forms of requests.
ghost use Rattle.sm_forms.specs.MemberOrder.{MembersComeFirst, MembersAscend, TestsNameMembers};

/// The first form that fails is that of the least member that is not in its form, by the bytes of the members' names;
/// the joint tests come behind all members (AWS Secrets Manager API Reference, the request parameters).
pub fn forms_go_by_names()
    ensures members { MembersComeFirst }
    ensures ascend { MembersAscend }
    ensures named { TestsNameMembers }
{}
