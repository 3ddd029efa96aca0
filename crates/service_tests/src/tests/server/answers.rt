// The bytes of answers.
use arrayvec::CapacityError;
use memcached_text::{
    AnswerBytes, FixedReply, LineError, MetaAnswer, MetaFields, MetaMarks, MetaStatus, TextAnswer,
    Ttl, ValueFound, append_answer,
};
use std::test::Fail;

/// The bytes of answers.
fn bytes_of(answers: &[TextAnswer<'_>]) -> Result<AnswerBytes, CapacityError> {
    let mut out = AnswerBytes::new();
    for answer in answers {
        append_answer(&mut out, answer)?;
    }
    Ok(out)
}

/// Whether answers have these bytes.
fn have_bytes(answers: &[TextAnswer<'_>], bytes: &[u8]) -> Result<bool, CapacityError> {
    Ok(bytes_of(answers)?.as_slice() == bytes)
}

// With all that a meta command can return of an item.
const FULL: MetaFields<'static> = MetaFields {
    key: b"foo",
    is_base64: false,
    cas: Some(12),
    flags: Some(3),
    size: Some(2),
    ttl: Some(Ttl::Seconds(77)),
    was_hit: Some(true),
    last_used: Some(5),
};

// With nothing of an item.
const BARE: MetaFields<'static> = MetaFields {
    key: b"Zm9v",
    is_base64: true,
    cas: None,
    flags: None,
    size: None,
    ttl: None,
    was_hit: None,
    last_used: None,
};

const NO_MARKS: MetaMarks = MetaMarks {
    is_awaited: false,
    is_stale: false,
    has_won: false,
};

// Values that were found, with the largest flags.
static VALUES: [TextAnswer<'static>; 3] = [
    TextAnswer::Value(ValueFound {
        key: b"k",
        flags: 4294967295,
        cas: None,
        data: b"ab\r\nc",
    }),
    TextAnswer::Value(ValueFound {
        key: b"k",
        flags: 4294967295,
        cas: Some(9),
        data: b"",
    }),
    TextAnswer::Reply(FixedReply::End),
];

#[test]
fn values_have_their_lengths(rt: HostRuntime) -> Result<(), Fail> {
    let bytes = b"VALUE k 4294967295 5\r\nab\r\nc\r\nVALUE k 4294967295 0 9\r\n\r\nEND\r\n";
    assert!(rt; have_bytes(&VALUES, bytes)?);
    Ok(())
}

static LINES: [TextAnswer<'static>; 7] = [
    TextAnswer::Reply(FixedReply::Stored),
    TextAnswer::Reply(FixedReply::NotStored),
    TextAnswer::Reply(FixedReply::TooLarge),
    TextAnswer::Refused(LineError::BadData),
    TextAnswer::Number(18446744073709551615),
    TextAnswer::Version(b"1.6"),
    TextAnswer::Stat {
        name: b"pid",
        value: b"1",
    },
];

#[test]
fn lines_have_their_ends(rt: HostRuntime) -> Result<(), Fail> {
    let bytes =
        b"STORED\r\nNOT_STORED\r\nSERVER_ERROR object too large for cache\r\nCLIENT_ERROR bad data chunk\r\n18446744073709551615\r\nVERSION 1.6\r\nSTAT pid 1\r\n";
    assert!(rt; have_bytes(&LINES, bytes)?);
    Ok(())
}

static IN_ORDER: [TextAnswer<'static>; 2] = [
    TextAnswer::Meta(MetaAnswer {
        status: MetaStatus::Value(b"hi"),
        flags: b"v s k Oq1 t f c h l q",
        fields: FULL,
        marks: NO_MARKS,
    }),
    TextAnswer::Meta(MetaAnswer {
        status: MetaStatus::Header,
        flags: b"t c",
        fields: MetaFields {
            ttl: Some(Ttl::Unlimited),
            ..FULL
        },
        marks: MetaMarks {
            is_awaited: false,
            is_stale: true,
            has_won: true,
        },
    }),
];

#[test]
fn meta_flags_are_returned_in_the_order_asked(rt: HostRuntime) -> Result<(), Fail> {
    let bytes = b"VA 2 s2 kfoo Oq1 t77 f3 c12 h1 l5\r\nhi\r\nHD t-1 c12 X W\r\n";
    assert!(rt; have_bytes(&IN_ORDER, bytes)?);
    Ok(())
}

static OF_NOTHING: [TextAnswer<'static>; 5] = [
    TextAnswer::Meta(MetaAnswer {
        status: MetaStatus::Miss,
        flags: b"t k c O5 s f h l",
        fields: BARE,
        marks: NO_MARKS,
    }),
    TextAnswer::Meta(MetaAnswer {
        status: MetaStatus::NotFound,
        flags: b"",
        fields: BARE,
        marks: MetaMarks {
            is_awaited: true,
            ..NO_MARKS
        },
    }),
    TextAnswer::Meta(MetaAnswer {
        status: MetaStatus::NotStored,
        flags: b"",
        fields: BARE,
        marks: NO_MARKS,
    }),
    TextAnswer::Meta(MetaAnswer {
        status: MetaStatus::Exists,
        flags: b"",
        fields: BARE,
        marks: NO_MARKS,
    }),
    TextAnswer::Reply(FixedReply::MetaNoop),
];

#[test]
fn what_an_item_does_not_have_is_not_returned(rt: HostRuntime) -> Result<(), Fail> {
    assert!(rt; have_bytes(&OF_NOTHING, b"EN kZm9v b O5\r\nNF Z\r\nNS\r\nEX\r\nMN\r\n")?);
    Ok(())
}

/// A value that was found, with the largest flags.
fn found<'a>(data: &'a [u8]) -> TextAnswer<'a> {
    TextAnswer::Value(ValueFound {
        key: b"k",
        flags: 4294967295,
        cas: None,
        data,
    })
}

#[test]
fn an_answer_that_does_not_fit_leaves_what_was_there(rt: HostRuntime) -> Result<(), Fail> {
    let block = [b'x'; 2029];
    let value = found(&block);
    let mut out = bytes_of(&[value])?;
    assert!(rt; out.len() == 2056 && append_answer(&mut out, &value).is_err() && out.len() == 2056);
    let rest = [b'x'; 2013];
    append_answer(&mut out, &found(&rest))?;
    assert!(rt; out.len() == 4096);
    Ok(())
}
