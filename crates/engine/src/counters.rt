// The thin functions that set a lent session record.
// Stays: one for each counter, and not `*session = to` alone, since the specification asks for thin functions, one for each counter.
ghost use Rattle.std.specs.Prelude.{◌≡◌};

use records::Session;

// Sets the moves kept.
pub fn set_kept(session: &mut Session, kept: u32)
    ensures { session.new ≡ record { kept = kept; evaluations = session.old.evaluations; blanks = session.old.blanks } }
{
    session.kept = kept;
}

// Sets the evaluations of the last accepted call.
pub fn set_evaluations(session: &mut Session, evaluations: u32)
    ensures { session.new ≡ record { kept = session.old.kept; evaluations = evaluations; blanks = session.old.blanks } }
{
    session.evaluations = evaluations;
}

// Sets the number of blanks.
pub fn set_blanks(session: &mut Session, blanks: u32)
    ensures { session.new ≡ record { kept = session.old.kept; evaluations = session.old.evaluations; blanks = blanks } }
{
    session.blanks = blanks;
}

// Sets all three.
pub fn set_all(session: &mut Session, to: Session)
    ensures { session.new ≡ to }
{
    set_kept(session, to.kept);
    set_evaluations(session, to.evaluations);
    set_blanks(session, to.blanks);
}
