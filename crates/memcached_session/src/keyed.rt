// What a step asks of the lane of its key.
ghost use Rattle.std.specs.Prelude.{◌≡◌, IfSome, Some, None};
ghost use Rattle.std.specs.Option.{option_map};
ghost use Rattle.record_pages.specs.Bounded.{IsKey};
ghost use Rattle.memcached_text.specs.Asked.{shown, storing_shown, meta_shown};
ghost use Rattle.memcached_text.specs.Steps.{event_shown};
ghost use Rattle.memcached_text.specs.Words.{is_key};
ghost use Rattle.memcached_session.specs.Keyed.{keyed_shown, key_in, gives_number, keyed_request, keyed_block, keyed_meta, if_served, keyed_set, keyed_large, keyed_told, keyed_of};

use crate::meta_reading::has_flag;
use crate::unserved::Unserved;
use memcached_text::{
    DeltaRequest, Exptime, MAX_KEY_LEN, MetaCommand, MetaRequest, StoreCommand, StoreRequest,
    StreamEvent, TextRequest,
};

/// What a step asks of the lane of its key.
#[derive(Clone, Copy)]
pub(crate) enum Keyed<'a> {
    /// One key of `get` or `gets`.
    Get {
        key: &'a [u8],
        with_cas: bool,
    },
    /// One key of `gat` or `gats`.
    GetAndTouch {
        key: &'a [u8],
        exptime: Exptime,
        with_cas: bool,
    },
    /// A command that stores, with its data block.
    Store {
        request: StoreRequest<'a>,
        block: &'a [u8],
    },
    /// A `set` or `ms` whose data block is too large.
    TooLarge {
        key: &'a [u8],
        noreply: bool,
    },
    /// `delete`.
    Delete {
        key: &'a [u8],
        noreply: bool,
    },
    /// `incr` and `decr`.
    Delta(DeltaRequest<'a>),
    /// `touch`.
    Touch {
        key: &'a [u8],
        exptime: Exptime,
        noreply: bool,
    },
    /// `mg`.
    MetaGet(MetaRequest<'a>),
    /// `ms`, with its data block.
    MetaSet {
        request: MetaRequest<'a>,
        block: &'a [u8],
    },
    /// `md`.
    MetaDelete(MetaRequest<'a>),
    /// `ma`.
    MetaDelta(MetaRequest<'a>),
}

impl<'a> Keyed<'a> {
    /// What a reader gave asks of the lane of its key, if anything.
    pub(crate) fn of(event: &StreamEvent<'a>) -> Option<Keyed<'a>>
        ensures exact { option_map keyed_shown result ≡ keyed_of (event_shown event.now) }
        ensures key { IfSome result (λ keyed. IsKey (key_in (keyed_shown keyed))) }
    {
        match Keyed::told(event) {
            Some(keyed) if is_key(keyed.key()) => Some(keyed),
            Some(_) => None,
            None => None,
        }
    }

    /// Its key.
    pub(crate) fn key(&self) -> &'a [u8]
        ensures { result.now ≡ key_in (keyed_shown self.now) }
    {
        match self {
            Keyed::Get { key, .. } => key,
            Keyed::GetAndTouch { key, .. } => key,
            Keyed::Store { request, .. } => request.key,
            Keyed::TooLarge { key, .. } => key,
            Keyed::Delete { key, .. } => key,
            Keyed::Delta(delta) => delta.key,
            Keyed::Touch { key, .. } => key,
            Keyed::MetaGet(meta) => meta.key,
            Keyed::MetaSet { request, .. } => request.key,
            Keyed::MetaDelete(meta) => meta.key,
            Keyed::MetaDelta(meta) => meta.key,
        }
    }

    /// Whether an item may get the number that the server draws.
    pub(crate) fn gives_number(&self) -> bool
        ensures { result ≡ gives_number (keyed_shown self.now) }
    {
        match self {
            Keyed::Get { .. } => false,
            Keyed::GetAndTouch { .. } => false,
            Keyed::Store { .. } => true,
            Keyed::TooLarge { .. } => false,
            Keyed::Delete { .. } => false,
            Keyed::Delta(_) => true,
            Keyed::Touch { .. } => false,
            Keyed::MetaGet(meta) => has_flag(meta, b'N'),
            Keyed::MetaSet { .. } => true,
            Keyed::MetaDelete(meta) => has_flag(meta, b'I'),
            Keyed::MetaDelta(_) => true,
        }
    }

    // The same, by what was given.
    fn told(event: &StreamEvent<'a>) -> Option<Keyed<'a>>
        ensures { option_map keyed_shown result ≡ keyed_told (event_shown event.now) }
    {
        match *event {
            StreamEvent::More => None,
            StreamEvent::Request(request) => Keyed::request(request),
            StreamEvent::Data { request, data } => Keyed::block(request, data),
            StreamEvent::TooLarge(request) => Keyed::large(request),
            StreamEvent::Key {
                key,
                exptime: None,
                with_cas,
            } => Some(Keyed::Get { key, with_cas }),
            StreamEvent::Key {
                key,
                exptime: Some(exptime),
                with_cas,
            } => Some(Keyed::GetAndTouch {
                key,
                exptime,
                with_cas,
            }),
            StreamEvent::KeysEnd => None,
            StreamEvent::Refused(_) => None,
            StreamEvent::Foreign => None,
        }
    }

    // A request without a data block.
    fn request(request: TextRequest<'a>) -> Option<Keyed<'a>>
        ensures { option_map keyed_shown result ≡ keyed_request (shown request.entry) }
    {
        match request {
            TextRequest::Delete { key, noreply } => Some(Keyed::Delete { key, noreply }),
            TextRequest::Delta(delta) => Some(Keyed::Delta(delta)),
            TextRequest::Touch {
                key,
                exptime,
                noreply,
            } => Some(Keyed::Touch {
                key,
                exptime,
                noreply,
            }),
            TextRequest::Get { .. } => None,
            TextRequest::GetAndTouch { .. } => None,
            TextRequest::Store(_) => None,
            TextRequest::FlushAll { .. } => None,
            TextRequest::Stats { .. } => None,
            TextRequest::Version => None,
            TextRequest::Verbosity { .. } => None,
            TextRequest::Quit => None,
            TextRequest::Shutdown { .. } => None,
            TextRequest::MetaNoop => None,
            TextRequest::Meta(meta) => Keyed::meta(meta),
        }
    }

    // A meta command without a data block.
    fn meta(meta: MetaRequest<'a>) -> Option<Keyed<'a>>
        ensures { option_map keyed_shown result ≡ if_served (meta_shown meta.entry) (keyed_meta meta.entry.command (meta_shown meta.entry)) }
    {
        if Unserved::of(&meta).is_some() {
            return None;
        }
        match meta.command {
            MetaCommand::Get => Some(Keyed::MetaGet(meta)),
            MetaCommand::Set => None,
            MetaCommand::Delete => Some(Keyed::MetaDelete(meta)),
            MetaCommand::Arithmetic => Some(Keyed::MetaDelta(meta)),
            MetaCommand::Debug => None,
        }
    }

    // A request with its data block.
    fn block(request: TextRequest<'a>, block: &'a [u8]) -> Option<Keyed<'a>>
        ensures { option_map keyed_shown result ≡ keyed_block (shown request.entry) block.now }
    {
        match request {
            TextRequest::Store(request) => Some(Keyed::Store { request, block }),
            TextRequest::Meta(request) => match Unserved::of(&request) {
                None => Some(Keyed::MetaSet { request, block }),
                Some(_) => None,
            },
            _ => None,
        }
    }

    // A request whose data block is too large.
    fn large(request: TextRequest<'a>) -> Option<Keyed<'a>>
        ensures { option_map keyed_shown result ≡ keyed_large (shown request.entry) }
    {
        match request {
            TextRequest::Store(store) => match store.mode {
                StoreCommand::Set => Some(Keyed::TooLarge {
                    key: store.key,
                    noreply: store.noreply,
                }),
                StoreCommand::Add => None,
                StoreCommand::Replace => None,
                StoreCommand::Append => None,
                StoreCommand::Prepend => None,
                StoreCommand::Cas => None,
            },
            TextRequest::Meta(meta) => match Unserved::of(&meta) {
                None => Some(Keyed::TooLarge {
                    key: meta.key,
                    noreply: false,
                }),
                Some(_) => None,
            },
            _ => None,
        }
    }
}

// Whether a word is a key.
fn is_key(word: &[u8]) -> bool
    ensures { result ≡ is_key word.now }
{
    !word.is_empty() && word.len() <= MAX_KEY_LEN
}
