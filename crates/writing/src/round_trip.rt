// The round trip of sheet and record.
ghost use Rattle.writing.specs.RoundTrip.{ReadsBack, WrittenAgain};

pub fn reads_back()
    ensures { ReadsBack }
{}

pub fn written_again()
    ensures { WrittenAgain }
{}
