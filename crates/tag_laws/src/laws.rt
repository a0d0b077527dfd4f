//! Theorems about all bytes and texts. Each function has an empty body; its contract is the theorem.

ghost use Rattle.std.specs.Prelude.{◌≡◌, ◌≢◌, ◌⊎◌, ℕ, List, Some, None};
ghost use Rattle.dmap_tags.specs.Tree.{Tree};
ghost use Rattle.code_table.specs.declared.row.CodeRow.{CodeRow};
ghost use Rattle.dmap_stream.specs.declared.event.Event.{Event};
ghost use Rattle.dmap_stream.specs.declared.refusal.StreamError.{StreamError};
ghost use Rattle.dmap_stream.specs.declared.refusal.StreamError.TheVariants as stream;
ghost use Rattle.dmap_stream.specs.Walk.{broken, walk_of};
ghost use Rattle.dmap_stream.specs.Reader.{Reader, Tells};
ghost use Rattle.dmap_show.specs.declared.reading.ShowError.{ShowError};
ghost use Rattle.dmap_show.specs.declared.reading.ShowError.TheVariants as show;
ghost use Rattle.dmap_show.specs.Readable.{Shows};
ghost use Rattle.dmap_show.specs.TextLines.{StopsBehind, Explains};
ghost use Rattle.tag_laws.specs.Places.{Place, IsPlace};
ghost use Rattle.tag_laws.specs.Faults.{HasFault, IsFirstFault, HasNoFault};

/// The walk over bytes is broken by the fault of the first place that has one, and by nothing else.
pub fn bytes_break_at_the_first_fault()
    ensures told { (rows : List CodeRow) (limit : ℕ) (bytes : List ℕ) (e : StreamError)
        → (walk_of rows limit bytes).ending ≡ broken e → IsFirstFault rows limit bytes e }
    ensures found { (rows : List CodeRow) (limit : ℕ) (bytes : List ℕ) (e : StreamError)
        → IsFirstFault rows limit bytes e → (walk_of rows limit bytes).ending ≡ broken e }
{}

/// It is not broken exactly if no place has a fault.
pub fn sound_bytes_have_no_fault()
    ensures none { (rows : List CodeRow) (limit : ℕ) (bytes : List ℕ)
        → ((e : StreamError) → (walk_of rows limit bytes).ending ≢ broken e) → HasNoFault rows limit bytes }
    ensures sound { (rows : List CodeRow) (limit : ℕ) (bytes : List ℕ) (e : StreamError)
        → HasNoFault rows limit bytes → (walk_of rows limit bytes).ending ≢ broken e }
{}

/// Bytes have one first fault at most: an offset has one place, and a place one fault.
pub fn bytes_have_one_first_fault()
    ensures fault { (rows : List CodeRow) (limit : ℕ) (bytes : List ℕ) (e f : StreamError)
        → IsFirstFault rows limit bytes e → IsFirstFault rows limit bytes f → e ≡ f }
    ensures place { (rows : List CodeRow) (bytes : List ℕ) (p q : Place)
        → IsPlace rows bytes p → IsPlace rows bytes q → p.at ≡ q.at → p ≡ q }
    ensures one { (limit : ℕ) (bytes : List ℕ) (p : Place) (e f : StreamError)
        → HasFault limit bytes p e → HasFault limit bytes p f → e ≡ f }
{}

/// A reader that refuses the bytes that it was fed returns their first fault, unless an allocation failed. A reader
/// that does not refuse them was fed bytes without a fault.
pub fn readers_refuse_the_first_fault()
    ensures refused { (fed : List ℕ) (handed : List Event) (r : Reader) (e : StreamError)
        → Tells fed handed r
        → r.error ≡ Some e → e ≢ stream.Memory → IsFirstFault r.rows r.limit fed e }
    ensures sound { (fed : List ℕ) (handed : List Event) (r : Reader) → Tells fed handed r
        → r.error ≡ None → HasNoFault r.rows r.limit fed }
{}

/// A text that is not shown tags stops being so at one line, and has one cause of a refusal, unless an allocation
/// failed.
pub fn a_text_stops_at_one_line()
    ensures line { (rows : List CodeRow) (text : List ℕ) (m n : ℕ)
        → StopsBehind rows text m → StopsBehind rows text n → m ≡ n }
    ensures cause { (rows : List CodeRow) (text : List ℕ) (e f : ShowError) → Explains rows text e
        → Explains rows text f
        → e ≢ show.Memory → f ≢ show.Memory → e ≡ f }
{}

/// Each text shows tags or stops at a line.
pub fn each_text_shows_tags_or_stops()
    ensures { (rows : List CodeRow) (text : List ℕ)
        → ((ts : List Tree) × Shows rows text ts) ⊎ ((n : ℕ) × StopsBehind rows text n) }
{}
