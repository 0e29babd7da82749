//! The top call.

ghost use Rattle.std.specs.Prelude.{◌≡◌, ◌≤◌, ◌++◌, ◌⊎◌, ℕ, List, Option, [], Some, None, map, codes, string_bytes};
ghost use Rattle.std.specs.List.{Contains};
ghost use Rattle.bonsai_words.specs.Ordered.{Asked, ordered};
ghost use Rattle.shelf_io.specs.Faults.{Rose};
ghost use Rattle.shelf_io.specs.Texts.{Texts};
ghost use Rattle.shelf_io.specs.Written.{appended, AppendsPrefix};
ghost use Rattle.bonsai_run.specs.Answers.{IsAnswer};
ghost use Rattle.bonsai_run.specs.Causes.{IsCauseOf};
ghost use Rattle.bonsai_run.specs.Complete.{IsAnswerable};
ghost use Rattle.bonsai_run.specs.Faults.{status_of, fault_text};
ghost use Rattle.bonsai_run.specs.Runs.{first_name, second_name, name_of, other_of, IsFaultStatus};
ghost use Rattle.bonsai_run.specs.Writing.{Tells};
ghost use Rattle.bonsai_run.specs.declared.faults.Fault.{Fault};
ghost use Rattle.bonsai_run.specs.declared.faults.Fault.TheVariants.{Unwritten};

use crate::answers::Answer;
use crate::faults::Fault;
use crate::orders::answer_of;
use crate::writing::{refuse, write_lines};
use bonsai_words::{Order, WordsError, read_words};
use shelf_io::{Shelf, Sink};
use std::alloc::Global;

/// Does what the words ask for, with the texts of the shelf: the answer goes to `out`, the line of a
/// fault to `err`. Says the status.
///
/// 10, 20 and 30 are the verdicts of `synth`, 0 and 40 what the other commands find; 1 comes only where `out` failed, 2
/// where the words are no order, 3 only where the shelf failed, 4 where a text is refused, 5 where a limit is
/// passed, 6 where memory ran out. With 2 to 6 nothing goes to `out`.
#[tactic(auto, using(crate::proofs::Names::name_among))]
pub fn run_alone<H: Shelf, O: Sink, E: Sink>(
    alloc: Global,
    words: &[String],
    shelf: &mut H,
    out: &mut O,
    err: &mut E,
) -> u8
    ensures usage { result ≡ 2 → ordered (map string_bytes words.now) ≡ None }
    ensures no_order { ordered (map string_bytes words.now) ≡ None → (result ≡ 2) ⊎ (result ≡ 6) }
    ensures answered { (IsFaultStatus result → ⊥) → (order : Asked) × (text : List ℕ) × (ordered (map string_bytes words.now) ≡ Some order) × IsAnswer (H.texts shelf.old) order result text × (O.written out.new ≡ appended (O.written out.old) text) }
    ensures quiet { (IsFaultStatus result → ⊥) → E.written err.new ≡ E.written err.old }
    ensures unwritten { result ≡ 1 → Rose (O.faults out.old) (O.faults out.new) × ((order : Asked) × (status : ℕ) × (text : List ℕ) × (ordered (map string_bytes words.now) ≡ Some order) × IsAnswer (H.texts shelf.old) order status text × AppendsPrefix (O.written out.old) (O.written out.new) text) }
    ensures unread { result ≡ 3 → Rose (H.faults shelf.old) (H.faults shelf.new) × ((name : List ℕ) × Contains (map string_bytes words.now) name × (H.last_failed shelf.new ≡ Some name) × Tells (E.written err.old) (E.written err.new) (E.faults err.old) (E.faults err.new) (codes "bonsai: cannot read " ++ name ++ codes "\n")) }
    ensures kept { 2 ≤ result → result ≤ 6 → O.written out.new ≡ O.written out.old }
    ensures refused { 3 ≤ result → result ≤ 6 → (result ≡ 6) ⊎ ((order : Asked) × (fault : Fault) × (ordered (map string_bytes words.now) ≡ Some order) × (result ≡ status_of fault) × IsCauseOf (H.texts shelf.old) order fault × Tells (E.written err.old) (E.written err.new) (E.faults err.old) (E.faults err.new) (fault_text (name_of order) (other_of order) fault)) }
    ensures complete { (told : Texts) (order : Asked) → H.texts shelf.old ≡ Some told → ordered (map string_bytes words.now) ≡ Some order → IsAnswerable told order
        → (Rose (H.faults shelf.old) (H.faults shelf.new) → ⊥) → (Rose (O.faults out.old) (O.faults out.new) → ⊥) → (result ≡ 6) ⊎ (IsFaultStatus result → ⊥) }
    ensures told { IsFaultStatus result → (name other : List ℕ) × (fault : Fault) × (result ≡ status_of fault) × Tells (E.written err.old) (E.written err.new) (E.faults err.old) (E.faults err.new) (fault_text name other fault) }
{
    let order = match read_words(alloc, words) {
        Ok(order) => order,
        Err(WordsError::Usage) => return refuse(err, Fault::Usage, "", ""),
        Err(WordsError::Memory) => return refuse(err, Fault::Memory, "", ""),
    };
    match answer_of(alloc, &order, shelf) {
        Ok(answer) => tell_answer(&answer, out, err),
        Err(fault) => refuse(err, fault, first_name(&order), second_name(&order)),
    }
}

/// Writes an answer, and says its status or that it can't be written.
fn tell_answer<O: Sink, E: Sink>(answer: &Answer, out: &mut O, err: &mut E) -> u8
    requires { (texts : Option Texts) × (order : Asked) × IsAnswer texts order answer.now.status answer.now.text.items }
    ensures answered { (IsFaultStatus result → ⊥) → (result ≡ answer.now.status) × (O.written out.new ≡ appended (O.written out.old) answer.now.text.items) }
    ensures quiet { (IsFaultStatus result → ⊥) → E.written err.new ≡ E.written err.old }
    ensures unwritten { IsFaultStatus result → (result ≡ 1) × Rose (O.faults out.old) (O.faults out.new) × AppendsPrefix (O.written out.old) (O.written out.new) answer.now.text.items }
    ensures told { IsFaultStatus result → Tells (E.written err.old) (E.written err.new) (E.faults err.old) (E.faults err.new) (fault_text [] [] Unwritten) }
{
    match write_lines(out, &answer.text) {
        Ok(()) => answer.status,
        Err(_) => refuse(err, Fault::Unwritten, "", ""),
    }
}

/// The name of an order's specification.
fn first_name(order: &Order) -> &str
    ensures { result.now ≡ first_name order.now }
{
    match order {
        Order::Synth { name, .. }
        | Order::Downset { name, .. }
        | Order::Check { name, .. }
        | Order::Eval { name, .. } => name.as_str(),
        Order::Gen { .. } => "",
    }
}

/// The name of an order's machine or lasso.
fn second_name(order: &Order) -> &str
    ensures { result.now ≡ second_name order.now }
{
    match order {
        Order::Check { machine, .. } => machine.as_str(),
        Order::Eval { lasso, .. } => lasso.as_str(),
        Order::Synth { .. } | Order::Downset { .. } | Order::Gen { .. } => "",
    }
}
