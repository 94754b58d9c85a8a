// English as a book of version 1: its mark and version, then the names in book order, each behind its length.
pub const BOOK: [u8; 283] = *b"\
    LNB\x00\x01\
    \x07January\x08February\x05March\x05April\x03May\x04June\x04July\
    \x06August\x09September\x07October\x08November\x08December\
    \x03Jan\x03Feb\x03Mar\x03Apr\x03May\x03Jun\x03Jul\x03Aug\x03Sep\x03Oct\
    \x03Nov\x03Dec\
    \x06Sunday\x06Monday\x07Tuesday\x09Wednesday\x08Thursday\x06Friday\
    \x08Saturday\
    \x03Sun\x03Mon\x03Tue\x03Wed\x03Thu\x03Fri\x03Sat\
    \x02Su\x02Mo\x02Tu\x02We\x02Th\x02Fr\x02Sa\
    \x01S\x01M\x01T\x01W\x01T\x01F\x01S\
    \x01J\x01F\x01M\x01A\x01M\x01J\x01J\x01A\x01S\x01O\x01N\x01D\
";
