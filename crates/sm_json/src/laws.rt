//! Laws of the tables of members.
ghost use Rattle.sm_json.specs.Laws.{TablesAscend, LeastIsRefused, FitIsAnswered, OnlyMembersCount, LastCounts, OrderIsNothing};
ghost use Rattle.sm_json.specs.KindLaws.{TextsAreStrings, TruthsAreTrueAndFalse, IntegersAreWhole, OnlyNumbersAreIntegers, BytesAreEncoded, ListsAre, TagsAre, FiltersAre, RegionsAre, RulesAre, RulesAreLeft};
ghost use Rattle.sm_json.specs.Kinds.{text, region, tag, filter};

/// Each table names its members once, in ascending byte order; so the member that is refused is the least that is
/// missing, of another type or left out by name, and a request is answered exactly where there is none.
pub fn the_least_fault_is_refused()
    ensures ascend { TablesAscend }
    ensures least { LeastIsRefused }
    ensures fit { FitIsAnswered }
{}

/// What counts of a body is the last member of each name of its operation's table. Their order, members before them
/// of the same name and members that the table doesn't have change nothing.
pub fn the_last_members_count()
    ensures only { OnlyMembersCount }
    ensures last { LastCounts }
    ensures order { OrderIsNothing }
{}

/// What a value of each type of members is in JSON's own words.
pub fn kinds_are_json()
    ensures texts { TextsAreStrings }
    ensures truths { TruthsAreTrueAndFalse }
    ensures integers { IntegersAreWhole }
    ensures only_numbers { OnlyNumbersAreIntegers }
    ensures bytes { BytesAreEncoded }
    ensures text_lists { ListsAre text }
    ensures tag_lists { ListsAre tag }
    ensures region_lists { ListsAre region }
    ensures filter_lists { ListsAre filter }
    ensures tags { TagsAre }
    ensures filters { FiltersAre }
    ensures regions { RegionsAre }
    ensures rules { RulesAre }
    ensures rules_left { RulesAreLeft }
{}
