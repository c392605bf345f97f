//! What the arguments ask for.
ghost use Rattle.std.specs.Prelude.{MatchOption, [], ◌∷◌};
ghost use Rattle.lot_play.specs.Arguments.{AskForNothing, AskOnlyFor};

use crate::task::Task;
use lot_json::token;
use lot_types::{Seq, Text};

/// A task, and the name of the document that it reads.
#[derive(Clone, Copy)]
pub struct Request<'a> {
    pub document: &'a str,
    pub task: Task,
}

impl<'a> Request<'a> {
    /// Reads the arguments: `check DOC` or `frame DOC TIME`, where `TIME` is a number token. It answers `None` exactly
    /// where they are no command.
    pub fn of(arguments: &'a Seq<Text>) -> Option<Request<'a>>
        ensures { MatchOption result (AskForNothing arguments.now)
            (λ r. AskOnlyFor arguments.now (r.document.now ∷ []) r.task) }
    {
        match arguments.items() {
            [command, document] if command.as_str() == "check" => Some(Request {
                document: document.as_str(),
                task: Task::Check,
            }),
            [command, document, time] if command.as_str() == "frame" => {
                match token::number(time.as_str().as_bytes()) {
                    Some(time) => Some(Request {
                        document: document.as_str(),
                        task: Task::Frame(time),
                    }),
                    None => None,
                }
            }
            _ => None,
        }
    }
}
