// One cut of four samples that begins at one hour.

pub const LIST: &[u8] = b"<ADL>\n\
<SEQUENCE>\n\
(SEQ_SAMPLE_RATE) S48000\n\
(SEQ_FRAME_RATE) 25\n\
</SEQUENCE>\n\
<SOURCE_INDEX>\n\
(Index) 0001 (F) \"URL:file://localhost/A.wav\" _ 00.00.00.00/0000 _\n\
</SOURCE_INDEX>\n\
<EVENT_LIST>\n\
(Entry) 0001 (Cut) I 0001 1 1 00.00.00.00/0000 01.00.00.00/0000 01.00.00.00/0004\n\
</EVENT_LIST>\n\
</ADL>\n";

/// A mono file of 16 bits with the samples 1000, -1000, 32767 and -32768.
pub const WAVE: &[u8] = b"RIFF\x2c\0\0\0WAVE\
fmt \x10\0\0\0\x01\0\x01\0\x80\xbb\0\0\0\x77\x01\0\x02\0\x10\0\
data\x08\0\0\0\xe8\x03\x18\xfc\xff\x7f\0\x80";

/// The byte at which the samples of a rendered file begin.
pub const SAMPLES_AT: usize = 690;
