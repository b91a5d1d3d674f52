// A line of an import, by its letter and the fields that it borrows from the text.

#[derive(Clone, Copy)]
pub enum Line<'a> {
    Header {
        code: &'a [u8],
    },
    Post {
        cell: &'a [u8],
        amount: &'a [u8],
    },
    Transfer {
        cell: &'a [u8],
        other: &'a [u8],
        amount: &'a [u8],
    },
}
