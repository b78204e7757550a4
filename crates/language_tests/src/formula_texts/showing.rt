//! What written and closed formulas have in common as texts: lists, arguments, edges and sorts.
use super::pieces::put;
use pc_common::Memory;
use pc_syntax::Sort;

/// A part of a formula that has a text of its own.
pub(crate) trait Shown {
    /// Writes the text.
    fn show(&self, out: &mut Vec<u8>) -> Result<(), Memory>;
}

/// `name[a;b;]`.
pub(crate) fn show_list<T: Shown>(
    out: &mut Vec<u8>,
    name: &[u8],
    members: &[T],
) -> Result<(), Memory> {
    put(out, name)?;
    put(out, b"[")?;
    for member in members {
        member.show(out)?;
        put(out, b";")?;
    }
    put(out, b"]")
}

/// `name a b`.
pub(crate) fn show_args<T: Shown>(
    out: &mut Vec<u8>,
    name: &[u8],
    args: &[T],
) -> Result<(), Memory> {
    put(out, name)?;
    for arg in args {
        put(out, b" ")?;
        arg.show(out)?;
    }
    Ok(())
}

/// What of a node stands between its micro-op and its stage: `:`, or `@c:` with a core.
pub(crate) fn show_core<T: Shown>(out: &mut Vec<u8>, core: Option<&T>) -> Result<(), Memory> {
    if let Some(core) = core {
        put(out, b"@")?;
        core.show(out)?;
    }
    put(out, b":")
}

/// `a>b`.
pub(crate) fn show_edge<T: Shown>(out: &mut Vec<u8>, from: &T, to: &T) -> Result<(), Memory> {
    from.show(out)?;
    put(out, b">")?;
    to.show(out)
}

/// `name(microop`, what a quantifier begins with.
pub(crate) fn show_sort(out: &mut Vec<u8>, name: &[u8], sort: Sort) -> Result<(), Memory> {
    put(out, name)?;
    match sort {
        Sort::Microop => put(out, b"(microop"),
        Sort::Core => put(out, b"(core"),
    }
}
