//! Workflow commands of GitHub Actions.

ghost use Rattle.std.specs.Prelude.{◌≡◌, ◌++◌, IfOk, OnOk, string_bytes};
ghost use Rattle.bpfcanon_object.specs.Github as spec;

use std::alloc::{AllocError, Allocator};

/// A part of a workflow command.
#[derive(Clone, Copy, Debug, PartialEq, Eq)]
pub enum Part {
    /// The value of a property.
    Property,
    /// The message, up to the end of the line.
    Message,
}

/// Appends a character of a workflow command.
fn push_github<A: Allocator>(out: &mut String<A>, part: Part, c: char) -> Result<(), AllocError>
    ensures { OnOk result (string_bytes out.new ≡ string_bytes out.old ++ spec.github_char part c) }
{
    match c {
        '%' => out.push_str("%25"),
        ':' if part == Part::Property => out.push_str("%3A"),
        ',' if part == Part::Property => out.push_str("%2C"),
        _ => out.push(c),
    }
}

/// A text without line breaks that ends no part of a workflow command.
pub fn github_text<A: Allocator>(alloc: A, part: Part, text: &str) -> Result<String<A>, AllocError>
    ensures { IfOk result (λ s. string_bytes s ≡ spec.github_text part text.now) }
{
    let mut value = String::new(alloc);
    for c in text.chars() {
        push_github(&mut value, part, c)?;
    }
    Ok(value)
}
