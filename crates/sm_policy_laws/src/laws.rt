//! Laws of what text is a policy.
ghost use Rattle.sm_policy_text.specs.Kinds.{effect, principals, pattern, operator_named, key_named, condition, one_or_more};
ghost use Rattle.sm_policy_laws.specs.Words.{IsOneOrMore};
ghost use Rattle.sm_policy_laws.specs.Parts.{IsEffect, IsPrincipals, IsPattern, IsOperator, IsKey, IsCondition};
ghost use Rattle.sm_policy_laws.specs.Laws.{IsReadAs, IsNameOf, PoliciesAre, PoliciesAreOne, PoliciesAreTested, FirstIsNamed, LeastIsNamed, LeastOfStatementIsNamed};

/// What a value of each part of a policy is in JSON's own words.
pub fn parts_are_as_stated()
    ensures effects { IsReadAs effect IsEffect }
    ensures principals { IsReadAs principals IsPrincipals }
    ensures patterns { IsReadAs pattern IsPattern }
    ensures pattern_lists { IsReadAs (one_or_more pattern) (IsOneOrMore IsPattern) }
    ensures operators { IsNameOf operator_named IsOperator }
    ensures keys { IsNameOf key_named IsKey }
    ensures conditions { IsReadAs condition IsCondition }
{}

/// What text is a policy, and which, member by member; it is one at most.
pub fn policies_are_as_stated()
    ensures policies { PoliciesAre }
    ensures one { PoliciesAreOne }
    ensures tested { PoliciesAreTested }
{}

/// The fault that is named is the first in the stated order; of unknown members it is the least.
pub fn the_first_fault_is_named()
    ensures first { FirstIsNamed }
    ensures least { LeastIsNamed }
    ensures least_of_statement { LeastOfStatementIsNamed }
{}
