//! The laws of reading. The functions do nothing: their contracts are the laws.

ghost use Rattle.std.specs.Prelude.{◌≡◌, ℕ, List, Some};
ghost use Rattle.command_frame.specs.declared.items.Item.{Item};
ghost use Rattle.log_base.specs.ClusterShape.{InRange, Shape};
ghost use Rattle.item_input.specs.Input.{Ending, ReadsAs};
ghost use Rattle.item_input.specs.Plain.{PlainEnding, ReadsPlain};

/// An input reads in one way: it has one list of items at its front, and one ending.
pub fn one_reading()
    ensures { (shape : Shape) (bytes : List ℕ) (items others : List Item) (ending other : Ending) → InRange shape
        → ReadsAs shape (Some bytes) items ending → ReadsAs shape (Some bytes) others other → (items ≡ others) × (ending ≡ other) }
{}

/// So does an input where no item may be a line of the fault script.
pub fn one_plain_reading()
    ensures { (shape : Shape) (bytes : List ℕ) (items others : List Item) (ending other : PlainEnding) → InRange shape
        → ReadsPlain shape (Some bytes) items ending → ReadsPlain shape (Some bytes) others other → (items ≡ others) × (ending ≡ other) }
{}
