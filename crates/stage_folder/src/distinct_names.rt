//! Whether the files of a step have distinct names.

ghost use Rattle.std.specs.Prelude.{◌≡◌};
ghost use Rattle.std.specs.List.{list_any};
ghost use Rattle.std.specs.Str.{bytes_eq};
ghost use Rattle.stage_folder.specs.Steps as specs;

use stage_records::ReplacedFile;

fn has_name(files: &[ReplacedFile], name: &str) -> bool
    ensures { result ≡ list_any (λ file. bytes_eq file.name name.now) files.now }
{
    let mut left = files;
    while let [file, others @ ..] = left {
        if file.name.as_str() == name {
            return true;
        }
        left = others;
    }
    false
}

/// Whether no two of these files have one name.
pub(crate) fn has_distinct_names(files: &[ReplacedFile]) -> bool
    ensures { result ≡ specs.has_distinct_names files.now }
{
    let mut left = files;
    while let [file, others @ ..] = left {
        if has_name(others, file.name.as_str()) {
            return false;
        }
        left = others;
    }
    true
}
