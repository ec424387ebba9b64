// The words of the command line.
ghost use Rattle.std.specs.Prelude.{◌≡◌, ◌<◌, ◌^◌};
ghost use Rattle.search_server.specs.Words.{number_within, command_of_three, command_of};

use itoa::Buffer;
use request_routes::number_of;

/// What the words of the command line ask for.
#[derive(Clone, Copy, Debug, PartialEq, Eq)]
pub enum Command {
    /// `pipe`: the one link is served.
    Pipe,
    /// `serve PORT CONNECTIONS`: so many links of the door are served, one after the other. The port is 1 to 65,535,
    /// the number of connections 1 to 1,000,000.
    Serve { port: u16, connections: u32 },
    /// `demo COUNT SEED`: a demo of so many documents is made from a seed. There are 0 to 100,000 documents, and the
    /// seed is 1 to 2,147,483,646.
    Demo { count: u32, seed: u32 },
}

// The number that decimal digits write without a leading zero, where it lies in these bounds.
fn number_within(least: u64, greatest: u64, text: &str) -> Option<u64>
    ensures { result ≡ number_within least greatest text.now }
{
    match number_of(text) {
        Some(number)
            if text == Buffer::new().format(number) && least <= number && number <= greatest =>
            Some(number),
        _ => None,
    }
}

// A command of three words.
fn command_of_three(word: &str, first: &str, second: &str) -> Option<Command>
    ensures { result ≡ command_of_three word.now first.now second.now }
{
    match word {
        "serve" => {
            let port = number_within(1, 65_535, first)?;
            let connections = number_within(1, 1_000_000, second)?;
            Some(Command::Serve {
                port: port as u16,
                connections: connections as u32,
            })
        }
        "demo" => {
            let count = number_within(0, 100_000, first)?;
            let seed = number_within(1, 2_147_483_646, second)?;
            Some(Command::Demo {
                count: count as u32,
                seed: seed as u32,
            })
        }
        _ => None,
    }
}

/// What the words after the program's own name ask for: `pipe`, `serve PORT CONNECTIONS` or `demo COUNT SEED`, with
/// numbers in decimal digits without a leading zero. None for all other words.
pub fn command_of(words: &[String]) -> Option<Command>
    ensures { result ≡ command_of words.now }
{
    match words {
        [word] => match word.as_str() {
            "pipe" => Some(Command::Pipe),
            _ => None,
        },
        [word, first, second] => command_of_three(word, first, second),
        _ => None,
    }
}
