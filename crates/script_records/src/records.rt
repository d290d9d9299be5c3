use api_model::ApiFault;
use book_rules::Command;
use gw_base::{Bytes, Seq, Text};

/// A record of a script, read from its line.
#[derive(Drop)]
pub enum Record {
    /// `text M API TEMPLATE`: makes a text API, or gives an API this template.
    PutText {
        moment: u64,
        api: Text,
        template: Text,
    },
    /// `api M API DOC`: makes an API of a definition document, or gives an API this one.
    PutDocument {
        moment: u64,
        api: Text,
        document: Text,
    },
    /// A command that has no definition: `deploy`, `stage`, `canary`, `promote`, `flush`, `key`, `plan`, `join`, `grant`, `usage` or `shutdown`.
    Ask {
        moment: u64,
        command: Command,
    },
    /// `post M W API STAGE BODY`: a call of `POST /API/STAGE` with this body.
    Post {
        moment: u64,
        word: u64,
        api: Text,
        stage: Text,
        body: Text,
    },
    /// `call M W REQUEST` and fields OUTCOME: a connection with these bytes, and what its exchanges come to.
    Call {
        moment: u64,
        word: u64,
        bytes: Bytes,
        outcomes: Seq<Bytes>,
    },
}

/// Why a line of a script ends the play.
#[derive(Drop)]
pub enum LineFault {
    /// The line breaks the form of its record.
    BadRecord,
    /// The definition, which a template is too, is not stated.
    Definition(ApiFault),
}

/// A record, or why the line has none.
pub type Reading = Result<Record, LineFault>;
