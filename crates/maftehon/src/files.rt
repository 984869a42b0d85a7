// The route file.
ghost use Rattle.std.specs.Prelude.{◌≡◌};
ghost use Rattle.promise.specs.Over.{outcome};
ghost use Rattle.file_rules.specs.Calls.{read_file, write_file};
ghost use Rattle.refusals.specs.Reply.{reply, replied};

use file_read::read_file;
use file_write::write_file;
use refusals::Answer;
use refusals::reply::counted;

pub fn mft_file_read(file: &[u8], list: &mut [u32], answer: &mut [u32; 2]) -> u32
    ensures { outcome (reply result answer.new) list.new ≡ replied (read_file 32 file.now list.old) }
{
    counted(Answer::from(read_file(file, list)), answer)
}

pub fn mft_file_write(list: &[u32], file: &mut [u8], answer: &mut [u32; 2]) -> u32
    ensures { outcome (reply result answer.new) file.new ≡ replied (write_file 32 list.now file.old) }
{
    counted(Answer::from(write_file(list, file)), answer)
}
