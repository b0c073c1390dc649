// The tests, by what they are about.
mod bytes;
mod many_names;
mod numbers;
mod printed_texts;
mod report_lines;
mod runs;
mod second_reader;
mod texts;
mod two_readers;
