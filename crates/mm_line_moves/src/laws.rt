ghost use Rattle.std.specs.Prelude.{◌≡◌, List};
ghost use Rattle.mm_types.specs.{Answer, Event, Move};
ghost use Rattle.mm_world.specs.World.{World};
ghost use Rattle.mm_store.specs.Behind.{Behind};
ghost use Rattle.mm_line_moves.specs.{AnsweredAlike, Did, StandsAlike, StandsBefore};

/// A line has one log: two runs of it that answer alike, from frames that live alike and over
/// devices that answer alike, make the same moves.
pub fn lines_have_one_log()
    ensures { (w v : World) (e : Event) (a : Answer) (b o c d : Behind) (xs ys : List Move) →
        StandsBefore e w b.life → StandsAlike b o → Did w e a v b xs c → Did w e a v o ys d →
        AnsweredAlike e xs ys → ys ≡ xs }
{}
