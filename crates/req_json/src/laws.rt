//! What holds of requests, replies and notices by their definitions alone.

ghost use Rattle.req_json.specs.Client.{RepliesAreTold, TextsTellApart};
ghost use Rattle.req_json.specs.Hearing.{NoticesAreTold};
ghost use Rattle.req_json.specs.ReadBack.{NoticesReadBack, RepliesReadBack};
ghost use Rattle.req_json.specs.Requests.{RequestsAreAsked};

/// A request that a client writes as compact JSON, in at most 65,536 bytes, and whose place, if it has one, is below 2^30, is what is
/// asked. Computes nothing.
pub fn requests_are_asked()
    ensures { RequestsAreAsked }
{}

/// The text of a reply whose names are UTF-8 is read as the JSON value that the reply is: so every reader of JSON is told, key for
/// key, what was answered. Computes nothing.
pub fn replies_read_back()
    ensures { RepliesReadBack }
{}

/// The text of a notice is read, by any reader of JSON, as the value that it was written of. Computes nothing.
pub fn notices_read_back()
    ensures { NoticesReadBack }
{}

/// A client reads from the text of a reply what was answered: its number, the client's own number, and the answer, but for which
/// command was accepted where nothing more is told of it. Computes nothing.
pub fn replies_are_told()
    ensures { RepliesAreTold }
{}

/// So replies of one text are one answer. Computes nothing.
pub fn texts_tell_apart()
    ensures { TextsTellApart }
{}

/// A client reads from the text of a notice what was told: a stop with its place, its threads and the watches that match there, or
/// another end of a run, or what a listener counted. Computes nothing.
pub fn notices_are_told()
    ensures { NoticesAreTold }
{}
