// Reading the bytes of calls: what holds of it. Each statement is the contract of a small function, proved.
#![tactic(auto)]

ghost use Rattle.wire.specs.Reading.{ReadsBack, OneSpelling, StopsWhereItMust, ByteOrder};
ghost use Rattle.wire.specs.Answered.{AnswersReadBack};

// The bytes of a call are read as that call.
pub fn reads_back()
    ensures { ReadsBack }
{}

// Bytes that are read as a call are the only bytes of that call.
pub fn one_spelling()
    ensures { OneSpelling }
{}

// The place of what is no call is the first at which no call goes on.
pub fn stops_where_it_must()
    ensures { StopsWhereItMust }
{}

// The order of two values is that of their bytes.
pub fn byte_order()
    ensures { ByteOrder }
{}

// The bytes of an answer are read as that answer.
pub fn answers_read_back()
    ensures { AnswersReadBack }
{}
