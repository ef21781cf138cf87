//! The words of a line of the set, each as the value that it stands for.

ghost use Rattle.std.specs.Prelude.{◌<◌, length};

/// The words of a line of the set.
#[derive(Clone, Copy, Debug)]
pub struct TrimWords<'a> {
    /// The top module.
    pub top: &'a str,
    /// The file that is written.
    pub to: &'a str,
    /// The modules that are stubbed, joined by commas.
    pub stubs: Option<&'a str>,
    /// The inout ports that are supplies, joined by commas.
    pub supplies: Option<&'a str>,
    /// The files that are read, one or more.
    pub files: &'a [String],
    ghost some: { 0 < length files.now },
}
