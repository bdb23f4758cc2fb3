//! What the words of the command line ask for.

ghost use Rattle.std.specs.Prelude.{◌≡◌, map, string_bytes};
ghost use Rattle.std.specs.Option.{option_map};
ghost use Rattle.replay_cli.specs.Requests.{request_seen};
ghost use Rattle.replay_cli.specs.Runs.{requested_by, named_task, settings_name};

/// What is done with a trace.
#[derive(Clone, Copy, Debug, PartialEq, Eq)]
pub enum Task {
    /// It is run.
    Play,
    /// Its lines are read, and not run.
    Check,
}

/// What the words ask for: a task, the name of the settings' file, or none for the built-in settings, and the name of
/// the trace's file.
#[derive(Clone, Copy, Debug)]
pub struct Request<'a> {
    pub task: Task,
    pub settings: Option<&'a str>,
    pub trace: &'a str,
}

/// What the words ask for, where they have the form `play SETTINGS TRACE` or `check SETTINGS TRACE`.
pub fn request_of(words: &[String]) -> Option<Request<'_>>
    ensures { option_map request_seen result ≡ requested_by (map string_bytes words.now) }
{
    let [word, settings, trace] = words else {
        return None;
    };
    let task = task_of(word.as_str())?;
    Some(Request {
        task,
        settings: settings_of(settings.as_str()),
        trace: trace.as_str(),
    })
}

fn task_of(word: &str) -> Option<Task>
    ensures { result ≡ named_task word.now }
{
    if word == "play" {
        Some(Task::Play)
    } else if word == "check" {
        Some(Task::Check)
    } else {
        None
    }
}

fn settings_of(word: &str) -> Option<&str>
    ensures { option_map (λ name. name.now) result ≡ settings_name word.now }
{
    if word == "-" { None } else { Some(word) }
}
