// Theorems on the journal, each the contract of a function.
ghost use Rattle.journal.specs.HeaderLaws.{HeadersReadBack, HeadersAreExact};
ghost use Rattle.journal.specs.WriteLaws.{RunsAsTold, ImagesInPlace};

// What is written as a header reads as it.
pub fn headers_read_back()
    ensures { HeadersReadBack }
{}

// What reads as a header is exactly what is written as it.
pub fn headers_are_exact()
    ensures { HeadersAreExact }
{}

// What a run of writes does on a device, by its events.
pub fn runs_as_told()
    ensures { RunsAsTold }
{}

// Where the after-images of changes lie.
pub fn images_in_place()
    ensures { ImagesInPlace }
{}
