ghost use Rattle.std.specs.Prelude.{◌≡◌};
ghost use Rattle.worker_script.specs.Reason.{number_of};

/// Why a line is bad. Of those that a line has, the one with the least number is told.
#[derive(Clone, Copy, Debug, PartialEq, Eq)]
pub enum Reason {
    /// It has a byte outside 0x20 to 0x7E.
    NotPlain,
    /// Its first token is no word of a line, and isn't made of digits alone.
    UnknownLine,
    /// Its number of tokens is wrong.
    WrongLength,
    /// A number token isn't a number, or is outside its range.
    WrongNumber,
    /// It declares a worker or a file after the first phase.
    LateDeclaration,
    /// Its worker or file number isn't the next one.
    NotNext,
    TooManyWorkers,
    TooManyFiles,
    TooManyPhases,
    TooManyCalls,
    TooManyStatuses,
    /// Its pid is declared already.
    KnownPid,
    /// Its device and inode are declared already.
    KnownPlace,
    LongText,
    /// Its moment is below that of the phase before.
    EarlierMoment,
    /// It is a call before the first phase.
    NoPhase,
    /// It names a worker that isn't declared.
    UnknownWorker,
    /// Its call word is unknown or missing.
    UnknownCall,
    /// It names a file that isn't declared.
    UnknownFile,
    WrongAccess,
    WrongShare,
    /// An option, a state, a mode, `now` or `wait`, `on` or `off`, or a flag is wrong or repeated.
    WrongOption,
    /// Its worker had its stop in an earlier line.
    AfterStop,
    /// Its stop is none of the five.
    UnknownStop,
    /// It declares a worker, and the token behind the share isn't `old`.
    UnknownEnding,
}

impl Reason {
    /// From 1 to 25.
    pub fn number(self) -> u32
        ensures { result ≡ number_of self }
    {
        match self {
            Reason::NotPlain => 1,
            Reason::UnknownLine => 2,
            Reason::WrongLength => 3,
            Reason::WrongNumber => 4,
            Reason::LateDeclaration => 5,
            Reason::NotNext => 6,
            Reason::TooManyWorkers => 7,
            Reason::TooManyFiles => 8,
            Reason::TooManyPhases => 9,
            Reason::TooManyCalls => 10,
            Reason::TooManyStatuses => 11,
            Reason::KnownPid => 12,
            Reason::KnownPlace => 13,
            Reason::LongText => 14,
            Reason::EarlierMoment => 15,
            Reason::NoPhase => 16,
            Reason::UnknownWorker => 17,
            Reason::UnknownCall => 18,
            Reason::UnknownFile => 19,
            Reason::WrongAccess => 20,
            Reason::WrongShare => 21,
            Reason::WrongOption => 22,
            Reason::AfterStop => 23,
            Reason::UnknownStop => 24,
            Reason::UnknownEnding => 25,
        }
    }
}
