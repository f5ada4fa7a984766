ghost use Rattle.std.specs.Prelude.{◌≡◌, IsTrue, IsFalse, MatchResult};
ghost use Rattle.refusals.specs.Numbers.{number};

// The question that refused, named by what it asks. Those about a contraction stand in the order in which they are asked: of two the lesser is the sooner.
#[derive(Clone, Copy, PartialEq, Eq, PartialOrd, Ord)]
pub enum Refusal {
    Rank,
    Counts,
    Letters,
    Extents,
    Sizes,
    ExtentsAgree,
    LettersOfC,
    Points,
    Inside,
    Apart,
    TileSizes,
    WorkRoom,
    TilesDone,
    Index,
    Mark,
    CutShort,
    BytesBehind,
    WordCount,
    Lags,
    Samples,
}

impl From<Refusal> for u32 {
    ghost from_gives = { λ refusal n. n ≡ number refusal };

    fn from(refusal: Refusal) -> u32 {
        match refusal {
            Refusal::Rank => 1,
            Refusal::Counts => 2,
            Refusal::Letters => 3,
            Refusal::Extents => 4,
            Refusal::Sizes => 5,
            Refusal::ExtentsAgree => 6,
            Refusal::LettersOfC => 30,
            Refusal::Points => 7,
            Refusal::Inside => 8,
            Refusal::Apart => 9,
            Refusal::TileSizes => 10,
            Refusal::WorkRoom => 11,
            Refusal::TilesDone => 12,
            Refusal::Index => 13,
            Refusal::Mark => 20,
            Refusal::CutShort => 21,
            Refusal::BytesBehind => 22,
            Refusal::WordCount => 23,
            Refusal::Lags => 31,
            Refusal::Samples => 32,
        }
    }
}

// A question: refused where it fails.
pub fn ask(passes: bool, refusal: Refusal) -> Result<(), Refusal>
    ensures { MatchResult result (λ _. IsTrue passes) (λ e. IsFalse passes × (e ≡ refusal)) }
{
    if passes { Ok(()) } else { Err(refusal) }
}
