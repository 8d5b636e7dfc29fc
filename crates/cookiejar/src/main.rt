//! `cookiejar MOMENT`: plays a session over the standard input, and writes its text.
#![tactic(auto)]

ghost use Rattle.std.specs.Prelude.{◌≡◌, None, Err};
ghost use Rattle.cookie_client.specs.Session.{moment_of};
ghost use Rattle.cookie_client.specs.declared.run_error.RunError.TheVariants as refusal;

use cookie_client::{RunError, moment_of, run_with_hasher};
use std::env;
use std::hash::RandomState;
use std::process::ExitCode;

// The one argument, the time.
fn argument(rt: &HostRuntime) -> Result<String, RunError> {
    let Ok(mut arguments) = env::args(rt) else {
        return Err(RunError::BadMoment);
    };
    let _program = arguments.next();
    match (arguments.next(), arguments.next()) {
        (Some(moment), None) => Ok(moment),
        _ => Err(RunError::BadMoment),
    }
}

// Plays the session. The input is a stranger's, so names are hashed with keys that are drawn. The time is checked
// before that, so a bad one has its own error even if no keys can be drawn.
fn play(rt: &HostRuntime, moment: &str) -> Result<(), RunError>
    ensures { moment_of moment.now ≡ None → result ≡ Err refusal.BadMoment }
{
    if moment_of(moment).is_none() {
        return Err(RunError::BadMoment);
    }
    let Ok(state) = RandomState::new(rt) else {
        return Err(RunError::Input);
    };
    run_with_hasher(rt.alloc(), state, moment, &mut rt.stdin(), &mut rt.stdout())
}

fn main(rt: HostRuntime) -> ExitCode {
    let played = match argument(&rt) {
        Ok(moment) => play(&rt, moment.as_str()),
        Err(error) => Err(error),
    };
    match played {
        Ok(()) => ExitCode::SUCCESS,
        Err(error) => {
            let _ = eprintln!(rt; "{error}");
            ExitCode::from(error.status())
        }
    }
}
