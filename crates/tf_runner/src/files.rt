//! The flow files of jobs, as they were read.
ghost use Rattle.std.specs.Prelude.{◌≡◌, option_copied};
ghost use Rattle.tf_runner.specs.Reading.{found_in, has_file_name};

use tf_values::Text;

/// What was read of a flow file: its bytes, or that it is longer than a flow file may be.
#[derive(Drop)]
pub enum Content {
    Bytes(Vec<u8>),
    TooLong,
}

/// A flow file that some jobs name, as it was read.
#[derive(Drop)]
pub struct JobFile {
    pub name: Text,
    pub content: Content,
}

/// Whether the file has that name.
fn is_named(name: &Text, file: &JobFile) -> bool
    ensures { result ≡ has_file_name name.now file.now }
{
    file.name.bytes() == name.bytes()
}

/// The first of the files that has the name, if one has it.
pub(crate) fn find<'a>(files: &'a [JobFile], name: &Text) -> Option<&'a JobFile>
    ensures { option_copied result ≡ found_in files.now name.now }
{
    files.iter().find(|file| is_named(name, file))
}
