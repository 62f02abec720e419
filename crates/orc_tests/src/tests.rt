mod frames;
mod images;
mod jobs;
mod objects;
mod streams;
mod texts;
