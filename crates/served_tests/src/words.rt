//! The words of `serve`, by hand from their form.
use session_server::{WordsWhy, read_words};
use std::test::Fail;

#[test]
fn one_client_and_two_names_are_the_form(rt: HostRuntime) -> Result<(), Fail> {
    let alloc = rt.alloc();
    let rows = [
        (
            ["serve", "127.0.0.1:4000", "1", "b.dsn", "b.ses"].as_slice(),
            true,
        ),
        (
            ["serve", "127.0.0.1:4000", "9", "b.dsn", "b.ses"].as_slice(),
            false,
        ),
        (
            ["serve", "127.0.0.1:4000", "01", "b.dsn", "b.ses"].as_slice(),
            false,
        ),
        (
            ["serve", "127.0.0.1:4000", "2", "b.dsn", "b.ses"].as_slice(),
            false,
        ),
        (
            ["serve", "127.0.0.1:4000", "1", "b.dsn", "b.ses", "x"].as_slice(),
            false,
        ),
        (
            ["serves", "127.0.0.1:4000", "1", "b.dsn", "b.ses"].as_slice(),
            false,
        ),
        ([].as_slice(), false),
    ];
    for (row, (words, form)) in rows.iter().enumerate() {
        let mut list = Vec::new(alloc);
        for word in words.iter() {
            list.push(String::from_str(alloc, word)?)?;
        }
        match read_words(alloc, &list) {
            Ok(read) => {
                assert!(rt; *form, "row {row}");
                assert_eq!(rt; read.address.as_str(), "127.0.0.1:4000", "row {row}");
                assert_eq!(rt; read.clients, 1, "row {row}");
                assert_eq!(rt; read.design.as_str(), "b.dsn", "row {row}");
                assert_eq!(rt; read.session.as_str(), "b.ses", "row {row}");
            }
            Err(why) => {
                assert!(rt; !*form, "row {row}");
                assert_eq!(rt; why, WordsWhy::Usage, "row {row}");
            }
        }
    }
    Ok(())
}
