//! Laws of sets. Each function does nothing; its contract is the law.
ghost use Rattle.digraphs.specs.Laws.{SetsAreTheirMembers};

/// Two sets list the same members exactly if each number is in both or in neither.
pub fn sets_are_their_members()
    ensures { SetsAreTheirMembers }
{}
