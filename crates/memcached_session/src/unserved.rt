// What is not served.
ghost use Rattle.std.specs.Prelude.{◌≡◌, ◌≤◌, length};
ghost use Rattle.memcached_text.specs.Asked.{meta_shown};
ghost use Rattle.memcached_session.specs.Unserving.{unserved_text, unserved_in};

use crate::meta_reading::has_flag;
use memcached_text::{MetaCommand, MetaRequest};

/// What a meta command asks for that is not served.
#[derive(Clone, Copy)]
pub enum Unserved {
    /// `me`.
    Debug,
    /// The flag `b`: a key in base64.
    Base64,
    /// The flag `h`: whether the item was hit before. No item keeps that.
    WasHit,
    /// The flag `l`: the seconds since the item was last used. No item keeps that.
    LastUsed,
}

impl Unserved {
    /// The line that says so, with its end.
    pub(crate) fn text(self) -> &'static str
        ensures text { result.now ≡ unserved_text self }
        ensures short { length result.now ≤ 40 }
    {
        match self {
            Unserved::Debug => "CLIENT_ERROR me is not served\r\n",
            Unserved::Base64 => "CLIENT_ERROR flag b is not served\r\n",
            Unserved::WasHit => "CLIENT_ERROR flag h is not served\r\n",
            Unserved::LastUsed => "CLIENT_ERROR flag l is not served\r\n",
        }
    }

    /// What a meta command asks for that is not served, if anything.
    pub(crate) fn of(request: &MetaRequest<'_>) -> Option<Unserved>
        ensures { result ≡ unserved_in (meta_shown request.now) }
    {
        match request.command {
            MetaCommand::Debug => Some(Unserved::Debug),
            MetaCommand::Get => Unserved::of_flags(request),
            MetaCommand::Set => Unserved::of_flags(request),
            MetaCommand::Delete => Unserved::of_flags(request),
            MetaCommand::Arithmetic => Unserved::of_flags(request),
        }
    }

    // The first of the flags that is not served.
    fn of_flags(request: &MetaRequest<'_>) -> Option<Unserved>
        ensures { result ≡ unserved_flag request.now.flags.now }
    {
        if has_flag(request, b'b') {
            Some(Unserved::Base64)
        } else if has_flag(request, b'h') {
            Some(Unserved::WasHit)
        } else if has_flag(request, b'l') {
            Some(Unserved::LastUsed)
        } else {
            None
        }
    }
}

ghost use Rattle.memcached_session.specs.Unserving.{unserved_flag};
