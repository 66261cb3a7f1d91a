// What a byte does, besides going to the next state: the actions of docs/GLIF.md, in their order. Four have
// another name there: none, name, text and declaration are Pass, NameStart, Content and Declares.
#[derive(Clone, Copy, Debug, PartialEq, Eq)]
pub enum Action {
    Pass,
    Tag,
    TagOn,
    NameStart,
    NameOn,
    Quote,
    Char,
    Attribute,
    Opens,
    Empty,
    Closes,
    Content,
    Section,
    Reference,
    TextReference,
    LetterOf,
    Decimal,
    Hexadecimal,
    Named,
    Numbered,
    Said,
    Declared,
    Declares,
    Target,
}
