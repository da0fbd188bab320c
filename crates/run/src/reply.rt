// What the judge replies (rules 11): nothing more where it accepts, else why not.
ghost use Rattle.std.specs.Prelude.{◌≡◌, Err};
ghost use Rattle.run.specs.Reply.{number_of, place_of};

// Why the judge refuses, with the place where the number has one.
#[derive(Clone, Copy)]
pub enum Refusal {
    Length,
    Malformed(u32),
    Range,
    Inequality,
    Query(u32),
    Altered(u32),
    Unsafe(u32),
    Full,
    Buffer,
    Rules(u32),
}

pub type Reply = Result<(), Refusal>;

// The reply's number, 0 where it accepts.
pub fn number(reply: Reply) -> u32
    ensures { result ≡ number_of reply }
{
    match reply {
        Ok(()) => 0,
        Err(Refusal::Length) => 1,
        Err(Refusal::Malformed(_)) => 2,
        Err(Refusal::Range) => 3,
        Err(Refusal::Inequality) => 4,
        Err(Refusal::Query(_)) => 5,
        Err(Refusal::Altered(_)) => 6,
        Err(Refusal::Unsafe(_)) => 7,
        Err(Refusal::Full) => 8,
        Err(Refusal::Buffer) => 9,
        Err(Refusal::Rules(_)) => 10,
    }
}

// The reply's place, 0 where its number has none.
pub fn place(reply: Reply) -> u32
    ensures { result ≡ place_of reply }
{
    match reply {
        Err(
            Refusal::Malformed(at)
            | Refusal::Query(at)
            | Refusal::Altered(at)
            | Refusal::Unsafe(at)
            | Refusal::Rules(at),
        ) => at,
        _ => 0,
    }
}
