// The end of a command line program.

ghost use Rattle.std.specs.Prelude.{◌≡◌, true, is_err};
ghost use Rattle.std.specs.Process.{exit_status};

use message::Error;
use std::process::ExitCode;

// Prints the text; or the error in one line on standard error, and then the program ends with status 1.
pub fn finish(rt: &HostRuntime, res: Result<String, Error>) -> ExitCode
    ensures { is_err res ≡ true → exit_status result ≡ 1 }
{
    let printed = res.and_then(|text| rt.print(text).map_err(Error::Stdout));
    let Err(error) = printed else {
        return ExitCode::SUCCESS;
    };
    // where that can't be written either, the status says it alone
    let _ = eprintln!(rt; "{error}");
    ExitCode::FAILURE
}
