//! Which requests come in through a door, and which questions are answered there.

ghost use Rattle.std.specs.Prelude.{◌≡◌};
ghost use Rattle.site_doors.specs.Rules.{is_request_at, is_question_at, is_let_in, code_of};

use plain_questions::question_codes;
use wire_lives::life_codes::LIFE;
use wire_talk::request_codes;

/// The number of a door for all that may be asked.
pub const FOR_ALL: u8 = 0;

/// The number of a door for clients.
pub const FOR_CLIENTS: u8 = 1;

/// The number of a door for other sites.
pub const FOR_PEERS: u8 = 2;

/// The requests that come in through a door for clients.
const CLIENT_REQUESTS: [u8; 16] = [
    request_codes::OPEN,
    request_codes::CLOSE,
    request_codes::CEILING,
    request_codes::BEGIN,
    request_codes::GET,
    request_codes::PUT,
    request_codes::DELETE,
    request_codes::COMMIT,
    request_codes::ABORT,
    request_codes::BEGIN_MERGE,
    request_codes::FORK_POINTS,
    request_codes::CONFLICTS,
    request_codes::GET_FOR,
    request_codes::STAT,
    request_codes::SHOW,
    request_codes::LEAVES,
];

/// The questions that are answered at a door for clients.
const CLIENT_QUESTIONS: [u8; 7] = [
    question_codes::AT,
    question_codes::KEYS,
    question_codes::SCAN,
    question_codes::RECORD,
    question_codes::BASE,
    question_codes::SITE,
    LIFE,
];

/// The requests that come in through a door for other sites.
const PEER_REQUESTS: [u8; 2] = [request_codes::STAT, request_codes::PULL];

/// The questions that are answered at a door for other sites.
const PEER_QUESTIONS: [u8; 3] = [question_codes::RECORD, question_codes::SITE, LIFE];

/// Whether the body comes in through the door.
pub fn comes_in(door: u8, body: &[u8]) -> bool
    ensures { result ≡ is_let_in door body.now }
{
    match body.first() {
        Some(code) => is_request(door, *code),
        None => true,
    }
}

/// Whether requests with this code come in through the door.
fn is_request(door: u8, code: u8) -> bool
    ensures { result ≡ is_request_at door code }
{
    match door {
        FOR_ALL => code < question_codes::AT,
        FOR_CLIENTS => CLIENT_REQUESTS.contains(&code),
        FOR_PEERS => PEER_REQUESTS.contains(&code),
        _ => false,
    }
}

/// Whether questions with this code are answered at the door.
pub fn is_question(door: u8, code: u8) -> bool
    ensures { result ≡ is_question_at door code }
{
    match door {
        FOR_ALL => code >= question_codes::AT,
        FOR_CLIENTS => CLIENT_QUESTIONS.contains(&code),
        FOR_PEERS => PEER_QUESTIONS.contains(&code),
        _ => false,
    }
}

/// The first byte of a body, or 0.
pub fn first_byte(body: &[u8]) -> u8
    ensures { result ≡ code_of body.now }
{
    match body.first() {
        Some(code) => *code,
        None => 0,
    }
}
