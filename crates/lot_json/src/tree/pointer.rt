//! The path to a value in a JSON text, by RFC 6901.

ghost use Rattle.std.specs.Prelude.{◌≡◌, [], ◌∷◌, ◌++◌, ◌<◌, ◌-◌, length, take, IfOk, OnOk, OnErr, encode_utf8};
ghost use Rattle.std.specs.Fmt.{decimal};
ghost use Rattle.std.specs.Str.{IsUtf8};
ghost use Rattle.lot_json.specs.declared.tree.pointer.Step.TheVariants as step;
ghost use Rattle.lot_json.specs.Pointer.{escaped, step_text, pointer_text};

use lot_types::{Memory, Text};
use std::alloc::Global;
use std::marker::Model;

/// A step from an array or an object to a value in it.
#[derive(Drop)]
pub enum Step {
    /// To the member of an object that has this name.
    Name(Text),
    /// To the item of an array that has this index.
    Index(u64),
}

/// The path to a value: the steps from the root. It has an allocator of its own.
///
/// A step that is removed stays where it is, so that the memory of its name serves the next one there.
#[derive(Drop)]
pub struct Pointer {
    steps: Vec<Step>,
    /// How many steps the path has. Those after them were removed.
    len: usize,
}

impl Model for Pointer {
    ghost use Rattle.std.specs.Prelude.{List, ◌≤◌, length, take};
    ghost use Rattle.lot_json.specs.declared.tree.pointer.Step.{Step};

    ghost Value = { List Step };

    ghost view = { λ p. take p.len p.steps.items };

    ghost invariant = { λ p. p.len ≤ length p.steps.items };
}

impl Pointer {
    /// The path to the root, with no step.
    pub fn new(alloc: Global) -> Result<Pointer, Memory>
        ensures { IfOk result (λ p. p ≡ []) }
    {
        Ok(Pointer {
            steps: Vec::new(alloc),
            len: 0,
        })
    }

    /// The allocator of the path.
    pub fn allocator(&self) -> Global {
        *self.steps.allocator()
    }

    /// Adds the step to the member of this name, in UTF-8. For want of memory the path is unchanged.
    pub fn push_name(&mut self, name: &[u8]) -> Result<(), Memory>
        requires utf8 { IsUtf8 name.now }
        ensures ok { OnOk result (self.new ≡ self.old ++ step.Name name.now ∷ []) }
        ensures err { OnErr result (self.new ≡ self.old) }
    {
        let name = unsafe { str::from_utf8_unchecked(name) };
        let alloc = self.allocator();
        if self.len == self.steps.len() {
            self.steps.push(Step::Name(Text::of(alloc, name)?))?;
        } else if let Step::Name(kept) = &mut self.steps[self.len] {
            kept.clear();
            kept.append(name)?;
        } else {
            self.steps[self.len] = Step::Name(Text::of(alloc, name)?);
        }
        self.len += 1;
        Ok(())
    }

    /// Adds the step to the item of this index. For want of memory the path is unchanged.
    pub fn push_index(&mut self, i: u64) -> Result<(), Memory>
        ensures ok { OnOk result (self.new ≡ self.old ++ step.Index i ∷ []) }
        ensures err { OnErr result (self.new ≡ self.old) }
    {
        if self.len == self.steps.len() {
            self.steps.push(Step::Index(i))?;
        } else {
            self.steps[self.len] = Step::Index(i);
        }
        self.len += 1;
        Ok(())
    }

    /// Removes the last step. Takes no memory.
    pub fn pop(&mut self)
        requires { 0 < length self.old }
        ensures { self.new ≡ take (length self.old - 1) self.old }
    {
        self.len -= 1;
    }

    /// The JSON pointer of the path by RFC 6901, section 3: `/` and the step, for each. That of the root is empty.
    #[tactic(auto, unfolding(crate::specs::Pointer::pointer_text))]
    pub fn text(&self) -> Result<Text, Memory>
        ensures { IfOk result (λ t. t ≡ pointer_text self.now) }
    {
        let mut text = Text::new(self.allocator());
        for step in &self.steps[..self.len] {
            text.append("/")?;
            append_step(&mut text, step)?;
        }
        Ok(text)
    }
}

/// Writes a step at the end of the text.
#[tactic(auto, unfolding(crate::specs::Pointer::step_text))]
fn append_step(text: &mut Text, step: &Step) -> Result<(), Memory>
    ensures { OnOk result (text.new ≡ text.old ++ step_text step.now) }
{
    match step {
        Step::Name(name) => append_escaped(text, name.as_str()),
        Step::Index(i) => append_number(text, *i),
    }
}

/// Writes a number in decimal at the end of the text.
fn append_number(text: &mut Text, n: u64) -> Result<(), Memory>
    ensures { OnOk result (text.new ≡ text.old ++ decimal n) }
{
    let digits = format!(in text.allocator(); "{n}")?;
    text.append(&digits)
}

/// Writes a name at the end of the text, with `~` as `~0` and `/` as `~1`.
fn append_escaped(text: &mut Text, name: &str) -> Result<(), Memory>
    ensures { OnOk result (text.new ≡ text.old ++ escaped name.now) }
{
    for c in name.chars() {
        append_character(text, c)?;
    }
    Ok(())
}

/// Writes a character of a name at the end of the text.
#[tactic(auto, using(crate::proofs::PointerEscapes::escaped_plain))]
fn append_character(text: &mut Text, c: char) -> Result<(), Memory>
    ensures { OnOk result (text.new ≡ text.old ++ escaped (encode_utf8 c)) }
{
    if c == '~' {
        text.append("~0")
    } else if c == '/' {
        text.append("~1")
    } else {
        text.push(c)
    }
}
