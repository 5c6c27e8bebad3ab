//! What printed Verilog means: the laws that read a module back and join it to its net.

ghost use Rattle.verilog_out.specs.ReadBack.{PrintedMeansNet};
ghost use Rattle.verilog_out.specs.Reading.{TextsTellModules};
ghost use Rattle.verilog_out.specs.Sample.{sample_is_printed, operators_are_printed, words_are_printed, alone_is_printed};

/// The law that what is printed for a net, read back, means the net: it is the text of a module, and whatever module has
/// that text, values of its names meet the module exactly where they meet the net, whatever its inputs and registers have,
/// and its registers start and step as those of the net. Computes nothing.
pub fn printed_means_net()
    ensures { PrintedMeansNet }
{}

/// The law that a text is that of one module: what is printed can be read in no other way. Computes nothing.
pub fn texts_tell_modules()
    ensures { TextsTellModules }
{}

/// The texts of small nets: a counter with an enable; every operator; ports that are called by words of Verilog; a register
/// with no ports. Computes nothing.
pub fn prints_the_samples()
    ensures counter { sample_is_printed }
    ensures operators { operators_are_printed }
    ensures words { words_are_printed }
    ensures alone { alone_is_printed }
{}
