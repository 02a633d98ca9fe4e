//! The frames of an echo of 1, worked out by hand.

/// The frame of the request.
pub(crate) const REQUEST: &[u8] =
    b"\x00\x00\x00\x49{\"action\":\"execute\",\"args\":[[\"value\",1]],\"id\":1,\"kind\":\"echo\",\"words\":[]}";

/// Those of the whole reply.
pub(crate) const REPLY: &[u8] =
    b"\x00\x00\x00\x1a{\"id\":1,\"state\":\"RUNNING\"}\x00\x00\x00\x25{\"id\":1,\"result\":1,\"state\":\"SUCCESS\"}";
