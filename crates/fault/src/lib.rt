// What the check of an image finds: one error for tables and correspondences, with the one list of the numbers that an answer can name. Their
// definitions are in specs/, and the laws by which both checks are proved are in proofs/. Assumes nothing.
#![tactic(auto)]

ghost use Rattle.std.specs.Prelude.{◌≡◌, ℕ, ◌<◌, ◌-◌};
ghost use Rattle.std.specs.List.{filter_map};
ghost use Rattle.model.specs.Answer.{number_of, first_of, up_to};
ghost use Rattle.fault.specs.Fault.{reason_of, checked_of, Answers, Gives};
ghost use Rattle.model.specs.Table.{distinct};

// Every reason that an answer can name, as the model names them.
#[derive(Clone, Copy, PartialEq, Eq)]
pub enum Reason {
    WrongTable,
    WrongState,
    WrongAction,
    WrongEdge,
    WrongExpression,
    WrongList,
    WrongLink,
    WrongPath,
    WrongPair,
    StopsDiffer,
    NotCovered,
    DoesNotFollow,
    OverSize,
    OverTests,
    NoContradiction,
    NotAssured,
    ReadsDiffer,
    WritesDiffer,
    LinkNotKept,
    EndStop,
    EndLimit,
    EndInput,
    EndRoom,
    WrongInput,
}

// The number of a reason.
impl From<Reason> for u32 {
    ghost from_gives = { λ reason r. r ≡ number_of (reason_of reason) };

    #[tactic(auto, unfolding(model::specs::Answer::number_of, crate::specs::Fault::reason_of))]
    fn from(reason: Reason) -> u32 {
        match reason {
            Reason::WrongTable => 1,
            Reason::WrongState => 2,
            Reason::WrongAction => 3,
            Reason::WrongEdge => 4,
            Reason::WrongExpression => 5,
            Reason::WrongList => 6,
            Reason::WrongLink => 7,
            Reason::WrongPath => 8,
            Reason::WrongPair => 9,
            Reason::StopsDiffer => 10,
            Reason::NotCovered => 11,
            Reason::DoesNotFollow => 12,
            Reason::OverSize => 13,
            Reason::OverTests => 14,
            Reason::NoContradiction => 15,
            Reason::NotAssured => 16,
            Reason::ReadsDiffer => 17,
            Reason::WritesDiffer => 18,
            Reason::LinkNotKept => 19,
            Reason::EndStop => 20,
            Reason::EndLimit => 21,
            Reason::EndInput => 22,
            Reason::EndRoom => 23,
            Reason::WrongInput => 24,
        }
    }
}

// What a check finds wrong: the reason of the first fault and its record. A check that finds nothing answers `Ok(())`.
#[derive(Clone, Copy, PartialEq, Eq)]
pub struct Fault {
    pub reason: Reason,
    pub record: u32,
}

// The first fault along the n records of an area, each looked at by the check handed over.
pub fn first_fault<F: Fn(u32) -> Result<(), Fault>>(n: u32, check: F) -> Result<(), Fault>
    requires { (i : ℕ) → i < n → F.pre check i }
    ensures { (f : _) → Answers (F.post check) f n → result ≡ checked_of (first_of f (up_to 0 n)) }
{
    for i in 0..n {
        check(i)?;
    }
    Ok(())
}

// Whether the records from `first` up to `end` have different numbers, each read by the function handed over: a record has a number or none.
pub fn are_distinct<F: Fn(u32) -> Option<u32>>(first: u32, end: u32, number: F) -> bool
    requires { F.IsAlwaysCallable number }
    ensures { (f : _) → Gives (F.post number) f → result ≡ distinct (filter_map f (up_to first (end - first))) }
{
    for i in first..end {
        let Some(x) = number(i) else {
            continue;
        };
        if (i + 1..end).any(|j| number(j) == Some(x)) {
            return false;
        }
    }
    true
}
