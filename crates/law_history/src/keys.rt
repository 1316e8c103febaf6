//! Laws of keys and tokens: each row stays of a live object, and no two are of one; what is sealed as a token is of a
//! whole object; and only token_open takes the seal away, of a token of the key that it is given.
//! They speak of the written machine alone.

ghost use Rattle.def_safety.specs.Wired.{Wired};
ghost use Rattle.def_confined.specs.Facts.{Facts};
ghost use Rattle.def_confined.specs.Keeps.{Keeps};
ghost use Rattle.def_confined.specs.Partitioned.{Partitioned};
ghost use Rattle.def_machine.specs.State.{State};
ghost use Rattle.def_step.specs.declared.Event.{Event};
ghost use Rattle.def_step.specs.Events.{happens};
ghost use Rattle.def_machine.specs.Platform.{Platform};
ghost use Rattle.def_machine.specs.Rows.{RowsFit};
ghost use Rattle.def_safety.specs.Opening.{FindsSealed, OpensTokens, StaysShut};
ghost use Rattle.def_safety.specs.Tokened.{Tokened};

/// Every event, lawful or not, leaves each row of a live object, and no two of one (`rows`); and it keeps what holds of
/// keys and tokens: each tagged capability that is sealed as a token is of a whole object, live or quarantined, and a
/// live one's has a row; of a key nobody holds anything but what is sealed so; and a key has a row as long as a token's
/// row names it (`tokens`).
pub fn events_tokened()
    ensures rows { (b : Platform) (s : State) (e : Event)
        → Partitioned b.image → Keeps b.image s → RowsFit s.objects s.tokens
        → RowsFit (happens b s e).0.objects (happens b s e).0.tokens }
    ensures tokens { (b : Platform) (s : State) (e : Event)
        → Partitioned b.image → Facts b.image → Wired b → Keeps b.image s
        → RowsFit s.objects s.tokens
        → Tokened b.image s → Tokened b.image (happens b s e).0 }
{}

/// Routines find a key or a token in a register exactly where it is one: sealed so, of the whole of a live object,
/// which its source names, with a row that says so (`found`). A step that carries out token_open, whose caller may
/// return, leaves in c10 the token without its seal exactly where c10 is a key and c11 a token of it: root, source,
/// bounds, address and rights stay. Else it answers -7 or -8 (`opens`). Of an object of which nobody holds anything but
/// what is sealed as a token nobody comes to hold anything else, by any event but the step that carries out token_open,
/// and finds that object's token and its key (`shut`).
pub fn tokens_opened()
    ensures found { (b : Platform) (s : State)
        → Keeps b.image s → Tokened b.image s → FindsSealed s }
    ensures opens { (b : Platform) (s : State)
        → Partitioned b.image → Keeps b.image s → Tokened b.image s → OpensTokens b s }
    ensures shut { (b : Platform) (s : State) (e : Event)
        → Partitioned b.image → Facts b.image → Keeps b.image s → RowsFit s.objects s.tokens
        → StaysShut b s e }
{}
