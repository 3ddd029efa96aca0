// What a step was.
ghost use Rattle.std.specs.Prelude.{◌≡◌};
ghost use Rattle.memcached_text.specs.Asked.{shown};
ghost use Rattle.memcached_text.specs.Steps.{event_shown};
ghost use Rattle.memcached_session.specs.Counting.{number_of_command, command_of, command_asked, command_of_mode, command_of_meta, command_of_direction};

use memcached_text::{Direction, MetaCommand, StoreCommand, StreamEvent, TextRequest};

/// What a step was, for a server's counters.
#[derive(Clone, Copy)]
pub enum SessionCommand {
    /// A part of a request, or one that is not counted.
    None,
    /// One key of `get` or `gets`.
    Get,
    /// One key of `gat` or `gats`.
    GetAndTouch,
    /// A command that stores.
    Store(StoreCommand),
    /// `delete`.
    Delete,
    /// `incr` or `decr`.
    Count(Direction),
    /// `touch`.
    Touch,
    /// `flush_all`.
    FlushAll,
    /// A meta command that names a key.
    Meta(MetaCommand),
}

impl SessionCommand {
    /// The number by which C knows it.
    pub fn number(self) -> u32
        ensures { result ≡ number_of_command self }
    {
        match self {
            SessionCommand::None => 0,
            SessionCommand::Get => 1,
            SessionCommand::GetAndTouch => 2,
            SessionCommand::Store(mode) => number_of_mode(mode),
            SessionCommand::Delete => 9,
            SessionCommand::Count(Direction::Up) => 10,
            SessionCommand::Count(Direction::Down) => 11,
            SessionCommand::Touch => 12,
            SessionCommand::FlushAll => 13,
            SessionCommand::Meta(command) => number_of_meta(command),
        }
    }

    /// That of what a reader gave.
    pub(crate) fn of(event: &StreamEvent<'_>) -> SessionCommand
        ensures { result ≡ command_of (event_shown event.now) }
    {
        match event {
            StreamEvent::More => SessionCommand::None,
            StreamEvent::Request(request) => SessionCommand::of_request(request),
            StreamEvent::Data { request, .. } => SessionCommand::of_request(request),
            StreamEvent::TooLarge(request) => SessionCommand::of_request(request),
            StreamEvent::Key { exptime: None, .. } => SessionCommand::Get,
            StreamEvent::Key {
                exptime: Some(_),
                ..
            } => SessionCommand::GetAndTouch,
            StreamEvent::KeysEnd => SessionCommand::None,
            StreamEvent::Refused(_) => SessionCommand::None,
            StreamEvent::Foreign => SessionCommand::None,
        }
    }

    // That of a request.
    fn of_request(request: &TextRequest<'_>) -> SessionCommand
        ensures { result ≡ command_asked (shown request.now) }
    {
        match request {
            TextRequest::Store(store) => SessionCommand::Store(store.mode),
            TextRequest::Delete { .. } => SessionCommand::Delete,
            TextRequest::Delta(delta) => SessionCommand::Count(delta.direction),
            TextRequest::Touch { .. } => SessionCommand::Touch,
            TextRequest::FlushAll { .. } => SessionCommand::FlushAll,
            TextRequest::Meta(meta) => SessionCommand::Meta(meta.command),
            TextRequest::Get { .. } => SessionCommand::None,
            TextRequest::GetAndTouch { .. } => SessionCommand::None,
            TextRequest::Stats { .. } => SessionCommand::None,
            TextRequest::Version => SessionCommand::None,
            TextRequest::Verbosity { .. } => SessionCommand::None,
            TextRequest::Quit => SessionCommand::None,
            TextRequest::Shutdown { .. } => SessionCommand::None,
            TextRequest::MetaNoop => SessionCommand::None,
        }
    }
}

// The number of a command that stores.
fn number_of_mode(mode: StoreCommand) -> u32
    ensures { result ≡ command_of_mode mode }
{
    match mode {
        StoreCommand::Set => 3,
        StoreCommand::Add => 4,
        StoreCommand::Replace => 5,
        StoreCommand::Append => 6,
        StoreCommand::Prepend => 7,
        StoreCommand::Cas => 8,
    }
}

// The number of a meta command.
fn number_of_meta(command: MetaCommand) -> u32
    ensures { result ≡ command_of_meta command }
{
    match command {
        MetaCommand::Get => 14,
        MetaCommand::Set => 15,
        MetaCommand::Delete => 16,
        MetaCommand::Arithmetic => 17,
        MetaCommand::Debug => 18,
    }
}
