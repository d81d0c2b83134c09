//! Laws: what compositions, inverses and rebased changes do to a text, and how indices move.
ghost use Rattle.rope_changes.specs.Laws.{LengthsAgree, ComposeApplies, InverseApplies, Converges, MovesCompose, MovesThroughComposed, StartStays, MovesKeepOrder, ReplacesRange, InvertsBack, NormalFormApplies, NormalFormKeepsLengths, NormalFormIsUnique, OperationsTell, CompositionsAssociate, RebasesConverge};

/// Does nothing; its contract is the laws of changes. A composition does what its two changes do
/// in a row, and an inverse leads back to the text before. Of two changes of one text each can be
/// rebased over the other, and both orders lead to the same text.
pub fn changes_agree()
    ensures lengths { LengthsAgree }
    ensures compose { ComposeApplies }
    ensures inverse { InverseApplies }
    ensures converge { Converges }
{}

/// Does nothing; its contract is the laws of normal forms. The normal form of a change does what
/// the change does, with the same lengths. A change set is its own normal form, and two change sets
/// with the same operations are equal, so that `compose` and `rebase` have one result each.
pub fn normal_forms_agree()
    ensures applies { NormalFormApplies }
    ensures lengths { NormalFormKeepsLengths }
    ensures unique { NormalFormIsUnique }
    ensures operations { OperationsTell }
{}

/// Does nothing; its contract is the law of `ChangeSet::compose`: three changes in a row compose to
/// one change, whether the first two are composed first or the last two.
pub fn compositions_associate()
    ensures { CompositionsAssociate }
{}

/// Does nothing; its contract is the law of `ChangeSet::rebase`. Of two changes of one text each is
/// rebased over the other, with opposite sides: both orders lead to the same text.
pub fn rebases_converge()
    ensures { RebasesConverge }
{}

/// Does nothing; its contract is the laws of moved indices. Indices keep their order, and before
/// inserted text they move through a composition of operations as through its two changes. Through
/// the change that `compose` returns they do if they are 0 or come after a character that it keeps.
/// Other indices may not: if one change deletes the only character of a text and the next one
/// inserts `"x"`, the two move index 1 to 0 one after the other. The result of `compose` inserts
/// `"x"` before it deletes the character, and moves index 1 to 1. With `Side::After` indices may
/// not either: an insert that a later change deletes leaves no trace in the composition.
pub fn indices_move()
    ensures compose { MovesCompose }
    ensures composed { MovesThroughComposed }
    ensures start { StartStays }
    ensures order { MovesKeepOrder }
{}

/// Does nothing; its contract is the law of `ChangeSet::replace`. What the longer change makes
/// of a text is what the shorter one makes of it, with the range replaced: it lies as far from the
/// end of that text as from the end of the text before.
pub fn ranges_are_replaced()
    ensures { ReplacesRange }
{}

/// Does nothing; its contract is the law of `ChangeSet::invert`: the inverse of a change leads
/// back to the text that it was made for.
pub fn inverses_lead_back()
    ensures { InvertsBack }
{}
