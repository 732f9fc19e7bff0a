//! The members of a policy's objects (IAM User Guide, "Grammar of the IAM JSON policy language").
ghost use Rattle.std.specs.Prelude.{◌≡◌};
ghost use Rattle.sm_policy_text.specs.Members.{spelled};

/// A member of a policy's document or of its statements.
#[derive(Clone, Copy, Debug, PartialEq, Eq)]
pub enum Member {
    Action,
    Condition,
    Effect,
    Id,
    Principal,
    Resource,
    Sid,
    Statement,
    Version,
}

impl Member {
    /// The member's name.
    pub fn spelled(self) -> &'static str
        ensures { result.now ≡ spelled self }
    {
        match self {
            Member::Action => "Action",
            Member::Condition => "Condition",
            Member::Effect => "Effect",
            Member::Id => "Id",
            Member::Principal => "Principal",
            Member::Resource => "Resource",
            Member::Sid => "Sid",
            Member::Statement => "Statement",
            Member::Version => "Version",
        }
    }
}
