// Texts that are put piece by piece.

ghost use Rattle.std.specs.Prelude.{◌≡◌, ◌++◌, codes, decimal, OnOk, OnErr};
ghost use Rattle.outside.specs.Output.{Put, PutFront};
ghost use Rattle.answers.specs.Lines.{scope_text};

use outside::{Sink, put_all, puts_add_up};
use settings_core::Scope;
use slice_base::Failed;

// Two texts, one after the other.
pub(crate) fn put_two<S: Sink>(console: &mut S, first: &[u8], second: &[u8]) -> Result<(), Failed>
    ensures ok { OnOk result (Put (S.output console.old) (first.now ++ second.now) (S.output console.new)) }
    ensures err { OnErr result (PutFront (S.output console.old) (first.now ++ second.now) (S.output console.new)) }
{
    puts_add_up();
    put_all(console, first)?;
    put_all(console, second)
}

// A text, and a number behind it.
pub(crate) fn put_number<S: Sink>(console: &mut S, text: &[u8], n: u128) -> Result<(), Failed>
    ensures ok { OnOk result (Put (S.output console.old) (text.now ++ decimal n) (S.output console.new)) }
    ensures err { OnErr result (PutFront (S.output console.old) (text.now ++ decimal n) (S.output console.new)) }
{
    let mut digits = itoa::Buffer::new();
    put_two(console, text, digits.format(n).as_bytes())
}

// Two texts, each with a number behind it.
pub(crate) fn put_numbers<S: Sink>(
    console: &mut S,
    first: &[u8],
    m: u128,
    second: &[u8],
    n: u128,
) -> Result<(), Failed>
    ensures ok { let text = first.now ++ decimal m ++ second.now ++ decimal n in
        OnOk result (Put (S.output console.old) text (S.output console.new)) }
    ensures err { let text = first.now ++ decimal m ++ second.now ++ decimal n in
        OnErr result (PutFront (S.output console.old) text (S.output console.new)) }
{
    puts_add_up();
    put_number(console, first, m)?;
    put_number(console, second, n)
}

// What a pair speaks of.
fn put_scope<S: Sink>(console: &mut S, scope: Scope) -> Result<(), Failed>
    ensures ok { OnOk result (Put (S.output console.old) (scope_text scope) (S.output console.new)) }
    ensures err { OnErr result (PutFront (S.output console.old) (scope_text scope) (S.output console.new)) }
{
    match scope {
        Scope::Global => put_all(console, b"global"),
        Scope::Extruder(n) => put_number(console, b"extruder ", n as u128),
        Scope::Mesh(i) => put_number(console, b"mesh ", i as u128),
    }
}

// A text, and a key with its scope behind it.
pub(crate) fn put_key<S: Sink>(
    console: &mut S,
    text: &[u8],
    scope: Scope,
    key: &[u8],
) -> Result<(), Failed>
    ensures ok { let whole = text.now ++ scope_text scope ++ codes " " ++ key.now in
        OnOk result (Put (S.output console.old) whole (S.output console.new)) }
    ensures err { let whole = text.now ++ scope_text scope ++ codes " " ++ key.now in
        OnErr result (PutFront (S.output console.old) whole (S.output console.new)) }
{
    puts_add_up();
    put_all(console, text)?;
    put_scope(console, scope)?;
    put_two(console, b" ", key)
}
