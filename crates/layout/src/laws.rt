// Laws of the layout, each the contract of a function, over any kind of item.
ghost use Rattle.layout.specs.Laws.{ReadsBack, ReadsExactly};

use items::Kind;

// A reservoir that is laid out reads back.
pub fn layout_reads_back<K: Kind>()
    ensures { ReadsBack K.Kind.code K.Kind.form K.Kind.reading }
{}

// Blocks that read as a reservoir are exactly its layout.
pub fn readings_are_exact<K: Kind>()
    ensures { ReadsExactly K.Kind.code K.Kind.form K.Kind.reading }
{}
