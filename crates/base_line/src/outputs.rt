//! Whether the files that are written have names of their own.

ghost use Rattle.std.specs.Prelude.{◌≢◌, ◌↔◌, ◌++◌, IsTrue, map, string_bytes};
ghost use Rattle.std.specs.List.{All, AllByRecursion};
ghost use Rattle.base_line.specs.Apart.{AreApart};

/// Whether no output has the name of an output after it, or of an input or a FILE.
pub fn are_apart(outputs: &[&str], inputs: &[&str], files: &[String]) -> bool
    ensures { IsTrue result ↔ AreApart (map (λ s. s.now) outputs.now)
        (map (λ s. s.now) inputs.now ++ map string_bytes files.now) }
{
    match outputs.split_first() {
        Some((output, rest)) => both(
            both(is_none_of(output, rest), is_no_input(output, inputs, files)),
            are_apart(rest, inputs, files),
        ),
        None => true,
    }
}

fn is_no_input(output: &str, inputs: &[&str], files: &[String]) -> bool
    ensures { IsTrue result ↔ AllByRecursion (λ name. name ≢ output.now)
        (map (λ s. s.now) inputs.now ++ map string_bytes files.now) }
{
    both(is_none_of(output, inputs), is_no_file(output, files))
}

fn is_none_of(output: &str, names: &[&str]) -> bool
    ensures { IsTrue result ↔ All (λ name. name.now ≢ output.now) names.now }
{
    names.iter().all(|name| *name != output)
}

fn is_no_file(output: &str, files: &[String]) -> bool
    ensures { IsTrue result ↔ All (λ file. string_bytes file ≢ output.now) files.now }
{
    files.iter().all(|file| file.as_str() != output)
}

fn both(one: bool, other: bool) -> bool
    ensures { IsTrue result ↔ (IsTrue one × IsTrue other) }
{
    one && other
}
