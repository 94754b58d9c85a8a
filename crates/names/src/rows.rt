// The names of the specification, from constants.rs where it has them. Each has a room as in an opened book: its length, then its
// letters, filled up with `_`. A shorter name of a month or a weekday is the start of its wide one.

pub const MONTHS: [u8; 252] = *b"\
        \x07January_____________\
        \x08February____________\
        \x05March_______________\
        \x05April_______________\
        \x03May_________________\
        \x04June________________\
        \x04July________________\
        \x06August______________\
        \x09September___________\
        \x07October_____________\
        \x08November____________\
        \x08December____________\
    ";

pub const WDAYS: [u8; 147] = *b"\
        \x06Sunday______________\
        \x06Monday______________\
        \x07Tuesday_____________\
        \x09Wednesday___________\
        \x08Thursday____________\
        \x06Friday______________\
        \x08Saturday____________\
    ";

pub const ERA_ABBREVIATED: [u8; 42] = *b"\
        \x02BC__________________\
        \x02AD__________________\
    ";

pub const ERA_NARROW: [u8; 42] = *b"\
        \x01B___________________\
        \x01A___________________\
    ";

pub const ERA_WIDE: [u8; 42] = *b"\
        \x0dBefore Christ_______\
        \x0bAnno Domini_________\
    ";

pub const QUARTER_WIDE: [u8; 84] = *b"\
        \x0b1st quarter_________\
        \x0b2nd quarter_________\
        \x0b3rd quarter_________\
        \x0b4th quarter_________\
    ";

pub const PERIOD_LETTERS: [u8; 84] = *b"\
        \x02am__________________\
        \x02AM__________________\
        \x02pm__________________\
        \x02PM__________________\
    ";

pub const PERIOD_DOTTED: [u8; 42] = *b"\
        \x04a.m.________________\
        \x04p.m.________________\
    ";

pub const PERIOD_LETTER: [u8; 42] = *b"\
        \x01a___________________\
        \x01p___________________\
    ";

pub const NOON_WORDS: [u8; 126] = *b"\
        \x02am__________________\
        \x02AM__________________\
        \x08midnight____________\
        \x02pm__________________\
        \x02PM__________________\
        \x04noon________________\
    ";

pub const NOON_DOTTED: [u8; 84] = *b"\
        \x04a.m.________________\
        \x08midnight____________\
        \x04p.m.________________\
        \x04noon________________\
    ";

pub const NOON_LETTER: [u8; 84] = *b"\
        \x01a___________________\
        \x02mi__________________\
        \x01p___________________\
        \x01n___________________\
    ";
