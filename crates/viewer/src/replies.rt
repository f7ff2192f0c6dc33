// A result of a call as a list keeps it, and the result again.
ghost use Rattle.std.specs.Prelude.{◌≡◌};

use crate::{Answer, Reply};
use terms::Refusal;

impl From<Result<Answer, Refusal>> for Reply {
    ghost use Rattle.viewer.specs.Replies.{result_of};

    ghost from_gives = { λ answered reply. result_of reply ≡ answered };

    fn from(answered: Result<Answer, Refusal>) -> Reply {
        match answered {
            Ok(Answer::Total(total)) => Reply::Total(total),
            Ok(Answer::Reached(scan)) => Reply::Reached(scan),
            Ok(Answer::Returned(scan)) => Reply::Returned(scan),
            Ok(Answer::Found(found)) => Reply::Found(found),
            Ok(Answer::Turned(scan)) => Reply::Turned(scan),
            Ok(Answer::Word(word)) => Reply::Word(word),
            Ok(Answer::Steps(steps)) => Reply::Steps(steps),
            Err(why) => Reply::Refused(why),
        }
    }
}

impl From<Reply> for Result<Answer, Refusal> {
    ghost use Rattle.viewer.specs.Replies.{result_of};

    ghost from_gives = { λ reply result. result ≡ result_of reply };

    fn from(reply: Reply) -> Result<Answer, Refusal> {
        match reply {
            Reply::Total(total) => Ok(Answer::Total(total)),
            Reply::Reached(scan) => Ok(Answer::Reached(scan)),
            Reply::Returned(scan) => Ok(Answer::Returned(scan)),
            Reply::Found(found) => Ok(Answer::Found(found)),
            Reply::Turned(scan) => Ok(Answer::Turned(scan)),
            Reply::Word(word) => Ok(Answer::Word(word)),
            Reply::Steps(steps) => Ok(Answer::Steps(steps)),
            Reply::Refused(why) => Err(why),
        }
    }
}
