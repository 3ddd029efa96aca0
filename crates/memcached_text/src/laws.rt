// Laws of streams of requests.
ghost use Rattle.memcached_text.specs.Blocks.{NoBlockIsRead};
ghost use Rattle.memcached_text.specs.Printing.{LinesReadBack, StreamsReadBack};

/// However a stream is cut, no byte of a data block of a line with a readable length is the first byte of a request.
pub fn no_block_is_read()
    ensures { NoBlockIsRead }
{}

/// What a client writes is read as it was meant: each request, with its data block or its keys, and a stream of them one after the
/// other. How requests are written is said apart from how lines are read.
pub fn requests_read_back()
    ensures lines { LinesReadBack }
    ensures streams { StreamsReadBack }
{}
