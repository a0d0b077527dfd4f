//! Theorems about all replays. Each function has an empty body; its contract is the theorem.

ghost use Rattle.share_replay.specs.Laws.{NothingIsPlayed, HistoriesGoOn, OutputsGoOn, EndedConnectionsRest, LinesByTheByte};

/// A script without lines writes nothing.
pub fn nothing_is_played()
    ensures { NothingIsPlayed }
{}

/// A script only appends to the share's history.
pub fn histories_go_on()
    ensures { HistoriesGoOn }
{}

/// The output of an interrupted replay is a prefix of the script's output.
pub fn outputs_go_on()
    ensures { OutputsGoOn }
{}

/// A connection that has ended gets no answer and no more bytes.
pub fn ended_connections_rest()
    ensures { EndedConnectionsRest }
{}

/// Some ends and a reply, byte by byte.
pub fn lines_by_the_byte()
    ensures { LinesByTheByte }
{}
